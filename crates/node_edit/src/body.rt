ghost use Rattle.std.specs.Prelude.{◌≡◌, ℕ, ◌≤◌, ◌<◌, ◌+◌, ◌-◌, ◌*◌, ◌^◌, ◌++◌, [], length, take, drop, insert, remove, true};
ghost use Rattle.blk_base.specs.Bytes.{with_bytes};
ghost use Rattle.blk_base.specs.Keys.{KeyFits, keys_rise};
ghost use Rattle.blk_base.specs.Leaf.{Pointer, count_of, pointer_at};
ghost use Rattle.leaf_view.specs.Listed.{pointers_in};
ghost use Rattle.leaf_view.specs.Search.{pointer_keys};
ghost use Rattle.node_edit.specs.Pointers.{HasPointers, pointer_image, with_child};

use blk_base::format::{HEADER_SIZE, MOST_POINTERS, POINTER_SIZE};
use blk_base::{Addr, Block, Key, put_bytes, put_u32, put_u64, u32_at};
use leaf_edit::put_key;

/// The number of pointers.
pub(crate) fn count_of(block: &Block) -> usize
    ensures { result ≡ count_of block.now }
{
    u32_at(block, 96) as usize
}

/// Writes the 33 bytes of pointer i.
fn put_pointer(block: &mut Block, i: usize, key: &Key, child: u64, generation: u64)
    requires { i < MOST_POINTERS }
    ensures written { block.new ≡ with_bytes block.old (pointer_at i) (pointer_image (record { key = key.now; at = child; generation = generation })) }
    ensures fits { KeyFits key.now }
    ensures fits_child { child < 2 ^ 64 }
    ensures fits_generation { generation < 2 ^ 64 }
{
    let at = HEADER_SIZE + POINTER_SIZE * i;
    put_key(block, at, key);
    put_u64(block, at + 17, child);
    put_u64(block, at + 25, generation);
}

/// Makes the list of pointers empty.
pub(crate) fn clear(block: &mut Block)
    ensures { HasPointers block.new [] }
{
    put_u32(block, 96, 0);
}

/// Leaves the first pointers alone.
pub(crate) fn truncate(block: &mut Block, at: usize)
    requires known { HasPointers block.old (pointers_in block.old) }
    requires within { at ≤ length (pointers_in block.old) }
    ensures { HasPointers block.new (take at (pointers_in block.old)) }
{
    put_u32(block, 96, at as u32);
}

/// Puts a pointer in at a place.
pub(crate) fn insert_pointer(block: &mut Block, at: usize, key: &Key, child: Addr, generation: u64)
    requires known { HasPointers block.old (pointers_in block.old) }
    requires within { at ≤ length (pointers_in block.old) }
    requires room { length (pointers_in block.old) < MOST_POINTERS }
    requires order { keys_rise (pointer_keys (insert (pointers_in block.old) at (record { key = key.now; at = child.0; generation = generation }))) ≡ true }
    ensures { HasPointers block.new (insert (pointers_in block.old) at (record { key = key.now; at = child.0; generation = generation })) }
{
    let count = count_of(block);
    block.copy_within(
        HEADER_SIZE + POINTER_SIZE * at..HEADER_SIZE + POINTER_SIZE * count,
        HEADER_SIZE + POINTER_SIZE * (at + 1),
    );
    put_pointer(block, at, key, child.0, generation);
    put_u32(block, 96, count as u32 + 1);
}

/// Takes the pointer at a place out.
pub(crate) fn remove_pointer(block: &mut Block, at: usize)
    requires known { HasPointers block.old (pointers_in block.old) }
    requires within { at < length (pointers_in block.old) }
    ensures { HasPointers block.new (remove (pointers_in block.old) at) }
{
    let count = count_of(block);
    block.copy_within(
        HEADER_SIZE + POINTER_SIZE * (at + 1)..HEADER_SIZE + POINTER_SIZE * count,
        HEADER_SIZE + POINTER_SIZE * at,
    );
    put_u32(block, 96, count as u32 - 1);
}

/// Writes another address and generation into the pointer at a place.
pub(crate) fn put_child(block: &mut Block, at: usize, child: u64, generation: u64)
    requires known { HasPointers block.old (pointers_in block.old) }
    requires within { at < length (pointers_in block.old) }
    ensures { HasPointers block.new (with_child (pointers_in block.old) at child generation) }
{
    put_u64(block, HEADER_SIZE + POINTER_SIZE * at + 17, child);
    put_u64(block, HEADER_SIZE + POINTER_SIZE * at + 25, generation);
}

/// Appends the pointers of another list from a place on.
pub(crate) fn append_pointers(block: &mut Block, source: &Block, from: usize)
    requires known { HasPointers block.old (pointers_in block.old) }
    requires source { HasPointers source.now (pointers_in source.now) }
    requires within { from ≤ length (pointers_in source.now) }
    requires room { length (pointers_in block.old) + (length (pointers_in source.now) - from) ≤ MOST_POINTERS }
    requires order { keys_rise (pointer_keys (pointers_in block.old ++ drop from (pointers_in source.now))) ≡ true }
    ensures { HasPointers block.new (pointers_in block.old ++ drop from (pointers_in source.now)) }
{
    let count = count_of(block);
    let end = count_of(source);
    put_bytes(
        block,
        HEADER_SIZE + POINTER_SIZE * count,
        &source[HEADER_SIZE + POINTER_SIZE * from..HEADER_SIZE + POINTER_SIZE * end],
    );
    put_u32(block, 96, (count + (end - from)) as u32);
}
