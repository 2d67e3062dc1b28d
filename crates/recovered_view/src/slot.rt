//! What stands in a slot after replay.
ghost use Rattle.std.specs.Prelude.{◌≡◌, ◌&&◌, option_map};
ghost use Rattle.flat_model.specs.Names.{is_in_slot, name_in_slot};
ghost use Rattle.flat_model.specs.Volume.{Subvolume};
ghost use Rattle.logged_volume.specs.Replay.{replay};
ghost use Rattle.std.specs.List.{find};
ghost use Rattle.current_view.specs.View.{seen};
ghost use Rattle.name_walk.specs.Given.{GivesCoherent};
ghost use Rattle.tree_range.specs.Shape.{IsTree};
ghost use Rattle.recovered_view.specs.Kept.{is_kept};
ghost use Rattle.recovered_view.specs.Log.{HasKeys, IsLogAt, IsRecovered, log_said, logged_names};

use crate::logged::find_logged;
use crate::ranges::is_kept;
use crate::sought::Sought;
use block_table::{BlockTable, Tree};
use name_walk::slot;

/// The inode to which the log's name in a slot leads, where the log has one.
fn logged_slot(table: &BlockTable, log: Option<Tree>, dir: u64, name: &[u8]) -> Option<u64>
    requires log { IsLogAt table.now log (log_said table.now log) }
    requires keys { HasKeys table.now log }
    ensures { result ≡ option_map (λ n. n.ino) (find (is_in_slot dir name.now) (logged_names table.now log)) }
{
    match log {
        Some(tree) => find_logged(table, &tree, &Sought::InSlot(dir, name)),
        None => None,
    }
}

/// The inode to which a name of the committed subvolume leads that replay keeps: one search for it.
fn kept_slot(
    table: &BlockTable,
    committed: &Tree,
    log: Option<Tree>,
    dir: u64,
    name: &[u8],
) -> Option<u64>
    requires tree { IsTree table.now committed.now }
    requires log { IsLogAt table.now log (log_said table.now log) }
    ensures { (sub : Subvolume) → GivesCoherent table.now committed.now sub
        → result ≡ option_map (λ n. n.ino) (find (λ n. is_in_slot dir name.now n && is_kept (log_said table.now log) n) sub.names) }
{
    match slot(table, committed, dir, name) {
        Some(held) if is_kept(table, log, dir, held.index, name, held.ino) => Some(held.ino),
        Some(_) => None,
        None => None,
    }
}

/// The inode to which a name leads after replay, where there is one: the log's, or else the committed subvolume's that replay
/// keeps (after add_inode_ref of fs/btrfs/tree-log.c).
pub(crate) fn slot_after(
    table: &BlockTable,
    committed: &Tree,
    log: Option<Tree>,
    dir: u64,
    name: &[u8],
) -> Option<u64>
    requires { IsRecovered table.now committed.now log }
    ensures { result ≡ option_map (λ n. n.ino) (name_in_slot (replay (seen table.now committed.now) (log_said table.now log)).names dir name.now) }
{
    match logged_slot(table, log, dir, name) {
        Some(ino) => Some(ino),
        None => kept_slot(table, committed, log, dir, name),
    }
}
