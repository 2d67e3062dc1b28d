//! Blocks of a file that become holes.
ghost use Rattle.std.specs.Prelude.{◌≡◌, ◌≤◌, ◌<◌, ◌+◌, ◌-◌, ◌*◌, ◌^◌, ℕ, List, Contains};
ghost use Rattle.blk_base.specs.declared.key.Key.{Key as KeyValue};
ghost use Rattle.tree_range.specs.Shape.{tree_items};
ghost use Rattle.table_volume.specs.Gives.{data_in};
ghost use Rattle.file_extents.specs.Extents.{Contents, HoldContents, IsContentEdit, IsHeld, MayClear, cleared, held_between};

use crate::cut::cut_run;
use blk_base::format::{BLOCK_SIZE, EXTENT_DATA};
use blk_base::{Ino, Key};
use block_table::{BlockTable, Tree};
use cow_tree::delete_range;
use data_release::let_go_between;

/// Makes holes of the blocks of a file from one number to another, the last one not included. A run that sticks out is cut;
/// the blocks that were there are let go, and all others stay where they are. It takes at most two blocks and buffers for each
/// block that was there, and 102 more, than it gives back.
pub fn clear_blocks(
    table: &mut BlockTable,
    tree: &mut Tree,
    ino: Ino,
    running: u64,
    from: u64,
    to: u64,
)
    requires held { IsHeld table.old tree.old }
    requires order { from < to }
    requires small { to < 2 ^ 52 }
    requires offsets { (key : KeyValue) (bytes : List ℕ) → Contains (tree_items table.old tree.old) (key, bytes) → key.offset + 1 < 2 ^ 64 }
    requires holds { (contents : Contents) × MayClear table.old tree.old ino.0 contents from to }
    ensures edit { (contents : Contents) → HoldContents (tree_items table.old tree.old) (data_in table.old) ino.0 contents
        → IsContentEdit table.old table.new tree.old tree.new running ino.0 (2 * held_between contents from (to - from) + 102) }
    ensures contents { (contents : Contents) → HoldContents (tree_items table.old tree.old) (data_in table.old) ino.0 contents
        → HoldContents (tree_items table.new tree.new) (data_in table.new) ino.0 (cleared contents from to) }
{
    cut_run(table, tree, ino, running, from);
    cut_run(table, tree, ino, running, to);
    let first = Key {
        objectid: ino.0,
        kind: EXTENT_DATA,
        offset: BLOCK_SIZE * from,
    };
    let last = Key {
        offset: BLOCK_SIZE * to - 1,
        ..first
    };
    let_go_between(table, tree, &first, &last);
    delete_range(table, tree, &first, &last);
}
