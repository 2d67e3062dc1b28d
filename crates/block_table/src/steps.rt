ghost use Rattle.std.specs.Prelude.{◌≡◌, ◌≢◌, ◌≤◌, ◌<◌, ◌+◌, ◌*◌, ◌/◌, ◌==◌, ◌&&◌, nat_le, not, max, length, false, true, Some, None, [], IfOk, IfSome, OnOk, OnErr, IsNone, MatchOption, slice_index_or, slice_set, ℕ, vec_len, vec_capacity, replicate, ◌^◌, All};
ghost use Rattle.block_table.specs.Slot.{free_slot};
ghost use Rattle.block_table.specs.Table.{IsFirstFree, IsInStock, KnowsFree, NoneFree, all_back, brought_back, free_from, free_one, is_free_block};

use crate::blocks::Blocks;
use crate::slot::{Buffer, Slot};
use crate::state::SlotState;
use blk_base::format::{COPY_BLOCK, FIRST_BLOCK};
use blk_base::{Addr, Block, OutOfMemory};
use std::alloc::Global;

/// So many blocks are marked together, where one of them may be Free (own).
pub(crate) const GROUP: usize = 256;

/// Whether a volume may use the block with this number: it isn't in front of the first superblock's end, nor the second
/// superblock's.
pub(crate) fn is_usable(number: usize) -> bool
    ensures { result ≡ (nat_le FIRST_BLOCK number && not (number == COPY_BLOCK)) }
{
    number >= FIRST_BLOCK as usize && number != COPY_BLOCK as usize
}

/// One where a volume may use the block with this number, for a count of those that are Free.
pub(crate) fn count_usable(number: usize) -> u32
    ensures { result ≡ free_one number free_slot }
{
    if is_usable(number) { 1 } else { 0 }
}

/// The first block from `from` on and below `to` that is Free and that a volume may use.
fn free_between(slots: &[Slot], from: usize, to: usize) -> Option<usize>
    requires { to ≤ length slots.now }
    ensures found { IfSome result (IsFirstFree slots.now from) }
    ensures none { IsNone result → NoneFree slots.now from to }
{
    for place in from..to {
        if is_usable(place) && slots[place].state() == SlotState::Free {
            return Some(place);
        }
    }
    None
}

/// The first block of a group that is Free and that a volume may use.
fn free_in(slots: &[Slot], group: usize) -> Option<usize>
    requires small { length slots.now < 2 ^ 32 }
    requires group { group ≤ length slots.now / 256 }
    ensures found { IfSome result (IsFirstFree slots.now (256 * group)) }
    ensures none { IsNone result → NoneFree slots.now (256 * group) (256 * group + 256) }
{
    let from = GROUP * group;
    free_between(slots, from, slots.len().min(from + GROUP))
}

/// The first block that is Free and that a volume may use. A group without one is marked no more.
pub(crate) fn find_free(slots: &[Slot], low: usize, groups: &mut Vec<bool>) -> usize
    requires small { length slots.now < 2 ^ 32 }
    requires knows { KnowsFree slots.now low groups.old.items }
    requires some { 1 ≤ free_from 0 slots.now }
    ensures first { IsFirstFree slots.now 0 result }
    ensures knows { KnowsFree slots.now result groups.new.items }
{
    for group in low / GROUP..groups.len() {
        if groups[group] {
            if let Some(number) = free_in(slots, group) {
                return number;
            }
            groups[group] = false;
        }
    }
    unreachable!()
}

/// A buffer of two boxes of zeros.
fn new_buffer(alloc: Global) -> Result<Buffer, OutOfMemory> {
    Ok(Buffer {
        kept: Box::new(alloc, [0; 4096])?,
        other: Box::new(alloc, [0; 4096])?,
    })
}

/// Puts so many new buffers behind the others, for which there is room; after an `Err` some of them.
fn push_buffers(spare: &mut Vec<Buffer>, alloc: Global, count: usize) -> Result<(), OutOfMemory>
    requires { vec_len spare.old + count ≤ vec_capacity spare.old }
    ensures ok { OnOk result (vec_len spare.new ≡ vec_len spare.old + count) }
    ensures more { vec_len spare.old ≤ vec_len spare.new }
    ensures capacity { vec_capacity spare.new ≡ vec_capacity spare.old }
{
    for index in 0..count {
        let _ = index;
        spare.push_reserved(new_buffer(alloc)?);
    }
    Ok(())
}

/// Makes so many buffers spare, where there are fewer, and room for as many more as there are blocks.
pub(crate) fn add_buffers(
    spare: &mut Vec<Buffer>,
    alloc: Global,
    buffers: u32,
    blocks: u32,
) -> Result<(), OutOfMemory>
    ensures ok { OnOk result (vec_len spare.new ≡ max (vec_len spare.old) buffers) }
    ensures err { OnErr result (vec_len spare.new ≡ vec_len spare.old) }
    ensures capacity { vec_capacity spare.old ≤ vec_capacity spare.new }
    ensures fits { (used : ℕ) → used ≤ blocks → vec_len spare.old + used ≤ vec_capacity spare.old → vec_len spare.new + used ≤ vec_capacity spare.new }
    ensures small { (used : ℕ) → used ≤ blocks → vec_len spare.old + used < 2 ^ 32 → vec_len spare.new + used < 2 ^ 32 }
{
    let before = spare.len();
    if buffers as usize <= before {
        return Ok(());
    }
    if buffers > u32::MAX - blocks {
        return Err(OutOfMemory);
    }
    let count = buffers as usize - before;
    spare.reserve(count + blocks as usize)?;
    let pushed = push_buffers(spare, alloc, count);
    if pushed.is_err() {
        spare.truncate(before);
    }
    pushed
}

/// So many blocks that are Free, and how many of them a volume may use.
pub(crate) fn free_slots(alloc: Global, blocks: u32) -> Result<(Vec<Slot>, u32), OutOfMemory>
    ensures slots { IfOk result (λ made. made.0.items ≡ replicate blocks free_slot) }
    ensures free { IfOk result (λ made. made.1 ≡ free_from 0 made.0.items) }
{
    let mut slots = Vec::with_capacity(alloc, blocks as usize)?;
    let mut free = 0;
    for number in 0..blocks {
        slots.push_reserved(Slot::free());
        free += count_usable(number as usize);
    }
    Ok((slots, free))
}

/// For each group of a table of so many blocks, that one of them may be Free.
pub(crate) fn all_groups(alloc: Global, blocks: u32) -> Result<Vec<bool>, OutOfMemory>
    ensures { IfOk result (λ groups. groups.items ≡ replicate (blocks / 256 + 1) true) }
{
    Ok(vec![in alloc; true; blocks as usize / GROUP + 1]?)
}

/// The lists of a table of so many blocks: those of 32 parts and two batches.
pub(crate) fn empty_lists(alloc: Global, blocks: u32) -> Result<Vec<Blocks>, OutOfMemory>
    ensures count { IfOk result (λ lists. vec_len lists ≡ 34) }
    ensures room { IfOk result (λ lists. 34 ≤ vec_capacity lists) }
    ensures each { IfOk result (λ lists. All (IsInStock blocks) lists.items) }
{
    let mut lists = Vec::with_capacity(alloc, 34)?;
    for index in 0..34u32 {
        let _ = index;
        lists.push_reserved(Blocks::with_room(alloc, blocks)?);
    }
    Ok(lists)
}

/// Puts a box back to the block at a byte address.
fn bring_back(slots: &mut Vec<Slot>, at: Addr, block: Box<Block>)
    ensures slots { slots.new.items ≡ brought_back slots.old.items at }
    ensures len { vec_len slots.new ≡ vec_len slots.old }
{
    let number = (at.0 / 4096) as usize;
    if number < slots.len() {
        let slot = &mut slots[number];
        slot.bring_back(block);
    }
}

/// Puts the boxes of a list back to their blocks, and leaves it empty.
pub(crate) fn return_all(slots: &mut Vec<Slot>, blocks: &mut Blocks)
    ensures slots { slots.new.items ≡ all_back slots.old.items blocks.old.pairs }
    ensures len { vec_len slots.new ≡ vec_len slots.old }
    ensures blocks { blocks.new ≡ record { pairs = []; room = blocks.old.room } }
{
    while let Some((at, block)) = blocks.pop() {
        bring_back(slots, at, block);
    }
}
