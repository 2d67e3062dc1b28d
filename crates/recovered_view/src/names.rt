//! The names that replay leaves: committed ones that it keeps, and then those of the log.
ghost use Rattle.std.specs.Prelude.{◌≡◌, IfOk, IsPermutation, filter, map};
ghost use Rattle.flat_model.specs.Unmarked.{unmarked};
ghost use Rattle.logged_volume.specs.Replay.{replay};
ghost use Rattle.current_view.specs.View.{seen};
ghost use Rattle.recovered_view.specs.Log.{IsRecovered, log_said};
ghost use Rattle.recovered_view.specs.Wanted.{is_wanted};

use crate::committed::kept_names;
use crate::logged::{Wanted, add_logged};
use blk_base::OutOfMemory;
use block_table::{BlockTable, Tree};
use flat_model::NameAt;
use std::alloc::Global;

/// Of the names that are asked for, the committed ones being given, those that replay leaves (after replay_dir_deletes and
/// add_inode_ref of fs/btrfs/tree-log.c).
pub(crate) fn names_after(
    alloc: Global,
    table: &BlockTable,
    tree: &Tree,
    log: Option<Tree>,
    committed: Vec<NameAt>,
    wanted: Wanted,
) -> Result<Vec<NameAt>, OutOfMemory>
    requires given { IsRecovered table.now tree.now log }
    requires committed { IsPermutation (map unmarked (filter (is_wanted wanted) (seen table.now tree.now).names)) committed.items }
    ensures { IfOk result (λ names.
        IsPermutation (map unmarked (filter (is_wanted wanted) (replay (seen table.now tree.now) (log_said table.now log)).names)) names.items) }
{
    let mut names = kept_names(alloc, table, log, committed)?;
    if let Some(log) = log {
        add_logged(alloc, table, &log, wanted, &mut names)?;
    }
    Ok(names)
}
