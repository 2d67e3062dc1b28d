ghost use Rattle.std.specs.Prelude.{◌≡◌, ℕ, ◌≤◌, ◌<◌, ◌+◌, ◌-◌, ◌*◌, ◌^◌, take, drop};
ghost use Rattle.blk_base.specs.Leaf.{header_at, item_offset};
ghost use Rattle.leaf_edit.specs.Packed.{header_of, lowered, raised};

use blk_base::format::{HEADER_SIZE, ITEM_HEADER_SIZE, MOST_ITEMS};
use blk_base::{Block, put_u32, u32_at};

/// Copies the headers of the items from a place on one place up.
fn copy_up(block: &mut Block, at: usize, count: usize)
    requires order { at ≤ count }
    requires room { count < MOST_ITEMS }
    ensures moved { (i : ℕ) → at ≤ i → i < count → header_of block.new (i + 1) ≡ header_of block.old i }
    ensures front { take (header_at (at + 1)) block.new ≡ take (header_at (at + 1)) block.old }
    ensures back { drop (header_at (count + 1)) block.new ≡ drop (header_at (count + 1)) block.old }
{
    block.copy_within(
        HEADER_SIZE + ITEM_HEADER_SIZE * at..HEADER_SIZE + ITEM_HEADER_SIZE * count,
        HEADER_SIZE + ITEM_HEADER_SIZE * (at + 1),
    );
}

/// Copies the headers behind a place one place down, onto it.
fn copy_down(block: &mut Block, at: usize, count: usize)
    requires order { at < count }
    requires most { count ≤ MOST_ITEMS }
    ensures moved { (i : ℕ) → at ≤ i → i + 1 < count → header_of block.new i ≡ header_of block.old (i + 1) }
    ensures front { take (header_at at) block.new ≡ take (header_at at) block.old }
    ensures back { drop (header_at (count - 1)) block.new ≡ drop (header_at (count - 1)) block.old }
{
    block.copy_within(
        HEADER_SIZE + ITEM_HEADER_SIZE * (at + 1)..HEADER_SIZE + ITEM_HEADER_SIZE * count,
        HEADER_SIZE + ITEM_HEADER_SIZE * at,
    );
}

/// Lowers the offsets in the headers from one place up to another, that one left out, by `by` bytes.
fn lower_offsets(block: &mut Block, from: usize, to: usize, by: u32)
    requires order { from ≤ to }
    requires most { to ≤ MOST_ITEMS }
    requires enough { (i : ℕ) → from ≤ i → i < to → by ≤ item_offset block.old i }
    ensures changed { (i : ℕ) → from ≤ i → i < to → header_of block.new i ≡ lowered by (header_of block.old i) }
    ensures front { take (header_at from) block.new ≡ take (header_at from) block.old }
    ensures back { drop (header_at to) block.new ≡ drop (header_at to) block.old }
{
    for i in from..to {
        let place = HEADER_SIZE + ITEM_HEADER_SIZE * i + 17;
        let offset = u32_at(block, place) - by;
        put_u32(block, place, offset);
    }
}

/// Raises the offsets in the headers from one place up to another, that one left out, by `by` bytes.
fn raise_offsets(block: &mut Block, from: usize, to: usize, by: u32)
    requires order { from ≤ to }
    requires most { to ≤ MOST_ITEMS }
    requires enough { (i : ℕ) → from ≤ i → i < to → item_offset block.old i + by < 2 ^ 32 }
    ensures changed { (i : ℕ) → from ≤ i → i < to → header_of block.new i ≡ raised by (header_of block.old i) }
    ensures front { take (header_at from) block.new ≡ take (header_at from) block.old }
    ensures back { drop (header_at to) block.new ≡ drop (header_at to) block.old }
{
    for i in from..to {
        let place = HEADER_SIZE + ITEM_HEADER_SIZE * i + 17;
        let offset = u32_at(block, place) + by;
        put_u32(block, place, offset);
    }
}

/// Moves the headers of the items from a place on one place up, for data that stand `by` bytes lower.
pub(crate) fn lower_headers(block: &mut Block, at: usize, count: usize, by: u32)
    requires order { at ≤ count }
    requires room { count < MOST_ITEMS }
    requires enough { (i : ℕ) → at ≤ i → i < count → by ≤ item_offset block.old i }
    ensures moved { (i : ℕ) → at ≤ i → i < count → header_of block.new (i + 1) ≡ lowered by (header_of block.old i) }
    ensures front { take (header_at at) block.new ≡ take (header_at at) block.old }
    ensures back { drop (header_at (count + 1)) block.new ≡ drop (header_at (count + 1)) block.old }
{
    copy_up(block, at, count);
    lower_offsets(block, at + 1, count + 1, by);
}

/// Moves the headers behind a place one place down, onto it, for data that stand `by` bytes higher.
pub(crate) fn raise_headers(block: &mut Block, at: usize, count: usize, by: u32)
    requires order { at < count }
    requires most { count ≤ MOST_ITEMS }
    requires enough { (i : ℕ) → at ≤ i → i < count → item_offset block.old i + by < 2 ^ 32 }
    ensures moved { (i : ℕ) → at ≤ i → i + 1 < count → header_of block.new i ≡ raised by (header_of block.old (i + 1)) }
    ensures front { take (header_at at) block.new ≡ take (header_at at) block.old }
    ensures back { drop (header_at count) block.new ≡ drop (header_at count) block.old }
{
    copy_down(block, at, count);
    raise_offsets(block, at, count - 1, by);
}
