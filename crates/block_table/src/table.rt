ghost use Rattle.std.specs.Prelude.{◌≡◌, ◌≢◌, ◌≤◌, ◌<◌, ◌+◌, ◌-◌, ◌/◌, ◌↔◌, ◌⊎◌, max, length, false, true, Some, None, [], IfOk, OnOk, OnErr, IsSome, IsTrue, option_copied, slice_index_or, slice_set, if◌then◌else◌};
ghost use Rattle.std.specs.Borrow.{sem};
ghost use Rattle.blk_base.specs.Address.{IsAllowed};
ghost use Rattle.blk_base.specs.Bytes.{zeros};
ghost use Rattle.block_table.specs.declared.state.SlotState.{SlotState};
ghost use Rattle.block_table.specs.Blocks.{with_block};
ghost use Rattle.block_table.specs.Slot.{free_slot, dirty_slot, is_whole, stood_slot};
ghost use Rattle.block_table.specs.Table.{NoneFree, Table, IsLent, all_back, empty_table, free_blocks, slot_at, state_at, with_lists, with_slot, with_spare};
ghost use Rattle.block_table.specs.TableLends.{LendsBlock};

use crate::blocks::Blocks;
use crate::slot::{Buffer, Slot};
use crate::state::SlotState;
use crate::steps::{
    GROUP, add_buffers, all_groups, count_usable, empty_lists, find_free, free_slots, return_all,
};
use blk_base::{Addr, Block, OutOfMemory, is_allowed};
use std::alloc::Global;
use std::marker::Model;
use std::mem::replace;

/// The blocks of a volume that are in memory, each under its byte address.
///
/// A block that isn't Free has a buffer of two boxes. Only `new` and `reserve` take memory.
#[derive(Drop)]
pub struct BlockTable {
    slots: Vec<Slot>,
    spare: Vec<Buffer>,
    stock: Vec<Blocks>,
    free: u32,
    low: usize,
    groups: Vec<bool>,
}

impl Model for BlockTable {
    ghost use Rattle.std.specs.Prelude.{vec_len, vec_capacity};
    ghost use Rattle.block_table.specs.Table.{Table, IsTable};

    ghost Value = { Table };

    ghost view = { λ t. record { slots = t.slots.items; spare = vec_len t.spare; lists = vec_len t.stock } };

    ghost invariant = { λ t. IsTable t.slots.items (vec_len t.spare) (vec_capacity t.spare) t.stock.items (vec_capacity t.stock) t.free t.low t.groups.items };
}

/// The number of the block at a byte address.
fn number_of(at: Addr) -> usize
    ensures { result ≡ at.0 / 4096 }
{
    (at.0 / 4096) as usize
}

impl BlockTable {
    /// A table of so many blocks, all of them Free, with no buffer, and with its lists, which have room for so many
    /// blocks each.
    pub fn new(alloc: Global, blocks: u32) -> Result<BlockTable, OutOfMemory>
        ensures { IfOk result (λ table. table ≡ empty_table blocks) }
    {
        let (slots, free) = free_slots(alloc, blocks)?;
        Ok(BlockTable {
            slots,
            spare: Vec::new(alloc),
            stock: empty_lists(alloc, blocks)?,
            free,
            low: 0,
            groups: all_groups(alloc, blocks)?,
        })
    }

    /// Makes at least so many buffers spare.
    pub fn reserve(&mut self, alloc: Global, buffers: u32) -> Result<(), OutOfMemory>
        ensures ok { OnOk result (self.new ≡ with_spare self.old (max self.old.spare buffers)) }
        ensures err { OnErr result (self.new ≡ self.old) }
    {
        let blocks = self.slots.len() as u32;
        add_buffers(&mut self.spare, alloc, buffers, blocks)
    }

    /// The number of blocks.
    pub fn blocks(&self) -> u32
        ensures { result ≡ length self.now.slots }
    {
        self.slots.len() as u32
    }

    /// Whether a volume of so many blocks may use the block at a byte address: a whole one that isn't in front of the
    /// first superblock's end, nor the second superblock's ("Superblock": its copies).
    pub fn is_allowed(&self, at: Addr) -> bool
        ensures { IsTrue result ↔ IsAllowed (length self.now.slots) at.0 }
    {
        is_allowed(self.blocks(), at)
    }

    /// How many blocks are Free and at an address that a volume may use.
    pub fn free_count(&self) -> u32
        ensures { result ≡ free_blocks self.now }
    {
        self.free
    }

    /// How many buffers are spare.
    pub fn spare(&self) -> u32
        ensures { result ≡ self.now.spare }
    {
        self.spare.len() as u32
    }

    /// How many lists are in stock.
    pub fn lists(&self) -> u32
        ensures { result ≡ self.now.lists }
    {
        self.stock.len() as u32
    }

    /// What the block at a byte address is used for. Where no block of the table begins there, it is Free.
    pub fn state(&self, at: Addr) -> SlotState
        ensures state { result ≡ state_at self.now at }
        ensures whole { is_whole result ≡ true → (slot_at self.now at).out ≡ false }
    {
        if at.0 % 4096 != 0 {
            return SlotState::Free;
        }
        match self.slots.get(number_of(at)) {
            Some(slot) => slot.state(),
            None => SlotState::Free,
        }
    }

    /// Takes the first Free block that a volume may use, with a spare buffer of any bytes, and makes it Dirty. It goes over
    /// at most a group's blocks that aren't Free, and over marks of groups.
    pub fn take(&mut self) -> Addr
        requires spare { 1 ≤ self.old.spare }
        requires free { 1 ≤ free_blocks self.old }
        ensures allowed { IsAllowed (length self.old.slots) result.0 }
        ensures free { state_at self.old result ≡ SlotState.Free }
        ensures lowest { NoneFree self.old.slots 0 (result.0 / 4096) }
        ensures table { self.new ≡ with_spare (with_slot self.old result (dirty_slot (slot_at self.new result).bytes)) (self.old.spare - 1) }
    {
        let number = find_free(&self.slots, self.low, &mut self.groups);
        let Some(buffer) = self.spare.pop() else {
            unreachable!()
        };
        self.slots[number] = Slot::dirty(buffer);
        self.free -= 1;
        self.low = number;
        Addr(number as u64 * 4096)
    }

    /// Takes a spare buffer for the block at a Free byte address, with these bytes, which the device has there.
    pub fn stand(&mut self, at: Addr, from: &Block, is_data: bool)
        requires allowed { IsAllowed (length self.old.slots) at.0 }
        requires free { state_at self.old at ≡ SlotState.Free }
        requires spare { 1 ≤ self.old.spare }
        ensures { self.new ≡ with_spare (with_slot self.old at (stood_slot from.now is_data)) (self.old.spare - 1) }
    {
        let Some(buffer) = self.spare.pop() else {
            unreachable!()
        };
        self.slots[number_of(at)] = Slot::stand(buffer, from, is_data);
        self.free -= 1;
    }

    /// Makes a block that is Sealed or Live Dirty, with a spare buffer of zeros in place of its own. A list that is out and
    /// has it keeps its box, and gives it back as any other.
    pub fn reuse(&mut self, at: Addr)
        requires written { (state_at self.old at ≡ SlotState.Sealed) ⊎ (state_at self.old at ≡ SlotState.Live) }
        requires spare { 1 ≤ self.old.spare }
        ensures { self.new ≡ with_spare (with_slot self.old at (dirty_slot (zeros 4096))) (self.old.spare - 1) }
    {
        let Some(buffer) = self.spare.pop() else {
            unreachable!()
        };
        self.slots[number_of(at)] = Slot::empty(buffer);
    }

    /// Makes a block that is Sealed Live, with its bytes as they are.
    pub fn settle(&mut self, at: Addr)
        requires sealed { state_at self.old at ≡ SlotState.Sealed }
        requires back { (slot_at self.old at).out ≡ false }
        ensures { self.new ≡ with_slot self.old at (record (slot_at self.old at) { state = SlotState.Live }) }
    {
        let slot = &mut self.slots[number_of(at)];
        slot.settle();
    }

    /// Makes a block that is Sealed Dirty again, with its bytes as they are.
    pub fn unseal(&mut self, at: Addr)
        requires sealed { state_at self.old at ≡ SlotState.Sealed }
        requires back { (slot_at self.old at).out ≡ false }
        ensures { self.new ≡ with_slot self.old at (record (slot_at self.old at) { state = SlotState.Dirty }) }
    {
        let slot = &mut self.slots[number_of(at)];
        slot.unseal();
    }

    /// Makes a Dirty block Sealed, and puts a box with its bytes at the end of a list.
    pub fn seal(&mut self, at: Addr, out: &mut Blocks)
        requires dirty { state_at self.old at ≡ SlotState.Dirty }
        requires lent { out.old.room ≡ length self.old.slots }
        requires room { length out.old.pairs < length self.old.slots }
        ensures table { self.new ≡ with_slot self.old at (record (slot_at self.old at) { state = SlotState.Sealed; out = true }) }
        ensures out { out.new ≡ with_block out.old at (slot_at self.old at).bytes }
    {
        let slot = &mut self.slots[number_of(at)];
        out.push(at, slot.seal());
    }

    /// The bytes of a block that isn't Free.
    pub fn block(&self, at: Addr) -> &Block
        requires { state_at self.now at ≢ SlotState.Free }
        ensures { result.now ≡ (slot_at self.now at).bytes }
    {
        self.slots[number_of(at)].block()
    }

    /// The bytes of a Dirty block, lent for writing.
    pub fn block_mut(&mut self, at: Addr) -> &mut Block
        requires { state_at self.old at ≡ SlotState.Dirty }
        ensures* writes_back { sem 𝓛 (LendsBlock self.entry at result) }
        ensures value { result.now ≡ (slot_at self.old at).bytes }
    {
        self.slots[number_of(at)].block_mut()
    }

    /// Whether a block is Live by `stand`, and then whether as data.
    fn stood(&self, at: Addr) -> Option<bool>
        ensures { result ≡ (slot_at self.now at).stood }
    {
        if at.0 % 4096 != 0 {
            return None;
        }
        self.slots.get(number_of(at))?.stood()
    }

    /// Whether the block at a byte address is Live by `stand`.
    pub fn is_stood(&self, at: Addr) -> bool
        ensures { IsTrue result ↔ IsSome (slot_at self.now at).stood }
    {
        self.stood(at).is_some()
    }

    /// Whether a block that is Live by `stand` stands there as data.
    pub fn is_data(&self, at: Addr) -> bool
        requires { IsSome (slot_at self.now at).stood }
        ensures { (slot_at self.now at).stood ≡ Some result }
    {
        self.stood(at).unwrap()
    }

    /// Whether a list that is out has the block at a byte address.
    pub fn is_out(&self, at: Addr) -> bool
        ensures { result ≡ (slot_at self.now at).out }
    {
        if at.0 % 4096 != 0 {
            return false;
        }
        match self.slots.get(number_of(at)) {
            Some(slot) => slot.is_out(),
            None => false,
        }
    }

    /// Lends an empty list with room for as many blocks as the table has.
    pub fn list(&mut self) -> Blocks
        requires { 1 ≤ self.old.lists }
        ensures list { result ≡ record { pairs = []; room = length self.old.slots } }
        ensures table { self.new ≡ with_lists self.old (self.old.lists - 1) }
    {
        self.stock.pop().unwrap()
    }

    /// Takes a list back that this table lent, with its boxes. No state changes.
    pub fn put_back(&mut self, mut blocks: Blocks)
        requires lent { IsLent self.old blocks }
        requires room { self.old.lists < 34 }
        ensures { self.new ≡ record { slots = all_back self.old.slots blocks.pairs; spare = self.old.spare; lists = self.old.lists + 1 } }
    {
        return_all(&mut self.slots, &mut blocks);
        self.stock.push_reserved(blocks);
    }

    /// Lets a block go: a Dirty one is Free at once, and gives its buffer back, and a Sealed or Live one is LetGo.
    pub fn let_go(&mut self, at: Addr)
        requires taken { state_at self.old at ≢ SlotState.Free }
        requires current { state_at self.old at ≢ SlotState.LetGo }
        ensures dirty { state_at self.old at ≡ SlotState.Dirty → self.new ≡ with_spare (with_slot self.old at free_slot) (self.old.spare + 1) }
        ensures written { state_at self.old at ≢ SlotState.Dirty → self.new ≡ with_slot self.old at (record (slot_at self.old at) { state = SlotState.LetGo; stood = None }) }
    {
        if self.state(at) == SlotState::Dirty {
            self.make_free(at);
            return;
        }
        let slot = &mut self.slots[number_of(at)];
        slot.let_go();
    }

    /// Makes a block that is LetGo Free, and gives its buffer back.
    pub fn release(&mut self, at: Addr)
        requires let_go { state_at self.old at ≡ SlotState.LetGo }
        requires back { (slot_at self.old at).out ≡ false }
        ensures { self.new ≡ with_spare (with_slot self.old at free_slot) (self.old.spare + 1) }
    {
        self.make_free(at);
    }

    /// Gives a block's buffer back.
    fn make_free(&mut self, at: Addr)
        requires taken { state_at self.old at ≢ SlotState.Free }
        requires back { (slot_at self.old at).out ≡ false }
        ensures { self.new ≡ with_spare (with_slot self.old at free_slot) (self.old.spare + 1) }
    {
        let number = number_of(at);
        let slot = replace(&mut self.slots[number], Slot::free());
        self.spare.push_reserved(slot.into_buffer());
        self.free += count_usable(number);
        self.low = self.low.min(number);
        self.groups[number / GROUP] = true;
    }

    /// Whether a list is one that this table lent: it has as much room as the table has blocks.
    pub fn has_lent(&self, blocks: &Blocks) -> bool
        ensures { IsTrue result ↔ IsLent self.now blocks.now }
    {
        blocks.room() == self.blocks()
    }
}
