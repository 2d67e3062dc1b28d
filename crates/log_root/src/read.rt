//! The subvolumes whose logs a log root tree has.
ghost use Rattle.std.specs.Prelude.{◌≡◌, ◌≤◌, ◌++◌, length, drop};
ghost use Rattle.tree_range.specs.Shape.{IsTree, tree_items};
ghost use Rattle.log_root.specs.Entries.{log_roots, log_subs};

use crate::leaf::log_key;
use blk_base::SubId;
use block_table::{BlockTable, Tree};
use tree_range::range;

/// Writes the ids of the subvolumes of which a log root tree has a log, by its root items, at most 16, in rising order to
/// the front of `into`, and answers how many they are ("btrfs_recover_log_trees" of fs/btrfs/tree-log.c). What stands behind
/// them stays.
pub fn subs(table: &BlockTable, root: &Tree, into: &mut [SubId; 16]) -> usize
    requires tree { IsTree table.now root.now }
    requires few { length (log_roots (tree_items table.now root.now)) ≤ 16 }
    ensures count { result ≡ length (log_roots (tree_items table.now root.now)) }
    ensures ids { into.new ≡ log_subs (tree_items table.now root.now) ++ drop result into.old }
{
    let mut count = 0;
    for (key, _) in range(table, root, &log_key(SubId(0)), &log_key(SubId(u64::MAX))) {
        into[count] = SubId(key.offset);
        count += 1;
    }
    count
}
