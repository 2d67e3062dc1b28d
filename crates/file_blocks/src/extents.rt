//! The blocks of a file.
ghost use Rattle.std.specs.Prelude.{◌≡◌, ◌≢◌, ◌≤◌, ◌<◌, ◌*◌, ◌+◌, ◌^◌, ◌∷◌, [], true, false, List, Some, MatchOption};
ghost use Rattle.std.specs.FinMap.{get};
ghost use Rattle.blk_base.specs.Keys.{extent_data};
ghost use Rattle.blk_base.specs.Leaf.{Item};
ghost use Rattle.tree_range.specs.Between.{item_view};
ghost use Rattle.tree_range.specs.Shape.{IsTree, tree_items};
ghost use Rattle.flat_model.specs.Records.{FileInode, FileRecord};
ghost use Rattle.flat_model.specs.Volume.{Subvolume};
ghost use Rattle.volume_image.specs.Subvolume.{make_key};
ghost use Rattle.table_volume.specs.Gives.{GivesSubvolume, data_in};
ghost use Rattle.file_blocks.specs.Runs.{IsLastExtent, block_view, extents_between};

use blk_base::format::{BLOCK_SIZE, EXTENT_DATA};
use blk_base::{Addr, Block, Ino, Key};
use block_table::{BlockTable, SlotState, Tree};
use item_extent::Extent;
use tree_range::range;

/// The key of an extent that begins at a block of a file ("EXTENT_DATA").
pub fn extent_key(ino: Ino, number: u64) -> Key
    requires { number < 2 ^ 52 }
    ensures { result ≡ make_key ino.0 extent_data (4096 * number) }
{
    Key {
        objectid: ino.0,
        kind: EXTENT_DATA,
        offset: BLOCK_SIZE * number,
    }
}

/// The first extent of a file that begins between two of its blocks, both included.
fn first_extent<'t>(
    table: &'t BlockTable,
    tree: &Tree,
    ino: Ino,
    from: u64,
    to: u64,
) -> Option<(Key, &'t [u8])>
    requires tree { IsTree table.now tree.now }
    requires from { from < 2 ^ 52 }
    requires to { to < 2 ^ 52 }
    ensures { MatchOption result (extents_between (tree_items table.now tree.now) ino.0 from to ≡ [])
        (λ item. (rest : List Item) × (extents_between (tree_items table.now tree.now) ino.0 from to ≡ item_view item ∷ rest)) }
{
    let first = extent_key(ino, from);
    let last = extent_key(ino, to);
    range(table, tree, &first, &last).next()
}

/// Whether an extent of a file begins between two of its blocks, both included.
fn has_extent(table: &BlockTable, tree: &Tree, ino: Ino, from: u64, to: u64) -> bool
    requires tree { IsTree table.now tree.now }
    requires from { from < 2 ^ 52 }
    requires to { to < 2 ^ 52 }
    ensures some { result ≡ true → extents_between (tree_items table.now tree.now) ino.0 from to ≢ [] }
    ensures none { result ≡ false → extents_between (tree_items table.now tree.now) ino.0 from to ≡ [] }
{
    match first_extent(table, tree, ino, from, to) {
        Some(_) => true,
        None => false,
    }
}

/// The last block of a file at or in front of one from which on an extent begins up to that one, where there is such.
fn last_begin(table: &BlockTable, tree: &Tree, ino: Ino, number: u64) -> u64
    requires tree { IsTree table.now tree.now }
    requires small { number < 2 ^ 52 }
    requires some { extents_between (tree_items table.now tree.now) ino.0 0 number ≢ [] }
    ensures within { result ≤ number }
    ensures some { extents_between (tree_items table.now tree.now) ino.0 result number ≢ [] }
    ensures none { result < number → extents_between (tree_items table.now tree.now) ino.0 (result + 1) number ≡ [] }
{
    let mut low = 0;
    let mut high = number;
    while low < high {
        let middle = low + (high - low + 1) / 2;
        if has_extent(table, tree, ino, middle, number) {
            low = middle;
        } else {
            high = middle - 1;
        }
    }
    low
}

/// The last extent of a file that begins at a block or in front of it.
pub fn last_extent<'t>(
    table: &'t BlockTable,
    tree: &Tree,
    ino: Ino,
    number: u64,
) -> Option<(Key, &'t [u8])>
    requires tree { IsTree table.now tree.now }
    requires small { number < 2 ^ 52 }
    ensures { MatchOption result (extents_between (tree_items table.now tree.now) ino.0 0 number ≡ [])
        (λ item. IsLastExtent (tree_items table.now tree.now) ino.0 number item.0 item.1.now) }
{
    if !has_extent(table, tree, ino, 0, number) {
        return None;
    }
    let begin = last_begin(table, tree, ino, number);
    first_extent(table, tree, ino, begin, number)
}

/// The block at a byte address, where it is in use.
fn block_at(table: &BlockTable, at: Addr) -> Option<&Block>
    ensures { block_view result ≡ data_in table.now at.0 }
{
    if table.state(at) == SlotState::Free {
        return None;
    }
    Some(table.block(at))
}

/// The block of a file with a number, where it is no hole.
pub fn file_block<'t>(
    table: &'t BlockTable,
    tree: &Tree,
    ino: Ino,
    number: u64,
) -> Option<&'t Block>
    requires tree { IsTree table.now tree.now }
    requires small { number < 2 ^ 52 }
    ensures { (given : Subvolume) (file : FileRecord) → GivesSubvolume table.now tree.now given → get given.inodes ino.0 ≡ Some (FileInode file)
        → block_view result ≡ get file.blocks number }
{
    // The proof reads here that the table has fewer than 2^32 blocks.
    let _blocks = table.blocks();
    match last_extent(table, tree, ino, number) {
        Some((key, bytes)) => match Extent::open(&key, bytes) {
            Ok(Extent::Regular { at, length, .. }) => {
                let behind = BLOCK_SIZE * number - key.offset;
                if behind >= length {
                    return None;
                }
                block_at(table, Addr(at.0.wrapping_add(behind)))
            }
            Ok(Extent::Inline(_)) => None,
            Ok(Extent::Hole { .. }) => None,
            Err(_) => None,
        },
        None => None,
    }
}
