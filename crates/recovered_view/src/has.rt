//! Whether an inode is there after replay, and what it is.
ghost use Rattle.std.specs.Prelude.{◌≡◌, ◌≢◌, is_some, nat_lt, option_map};
ghost use Rattle.std.specs.FinMap.{get};
ghost use Rattle.std.specs.List.{find};
ghost use Rattle.flat_model.specs.Names.{leads_to, links_of};
ghost use Rattle.flat_model.specs.Volume.{is_dir_at, is_dir_there};
ghost use Rattle.logged_volume.specs.Replay.{names_left, replay, replayed_record};
ghost use Rattle.current_view.specs.View.{seen};
ghost use Rattle.recovered_view.specs.Log.{HasKeys, IsLogAt, IsRecovered, log_said, logged_names, value_said};

use crate::committed::find_committed;
use crate::logged::{find_logged, logged_mode};
use crate::sought::Sought;
use blk_base::format::{DIR_MODE, FIRST_FREE};
use block_table::{BlockTable, Tree};
use name_walk::is_dir;

/// Whether a name leads to an inode after replay.
fn has_name(table: &BlockTable, committed: &Tree, log: Option<Tree>, ino: u64) -> bool
    requires given { IsRecovered table.now committed.now log }
    requires not_root { ino ≢ 256 }
    ensures { result ≡ nat_lt 0 (links_of (names_left (seen table.now committed.now) (log_said table.now log)) ino) }
{
    has_logged_name(table, log, ino)
        || find_committed(table, committed, ino, &Sought::Kept(table, log)).is_some()
}

/// Whether the log has a name of an inode.
fn has_logged_name(table: &BlockTable, log: Option<Tree>, ino: u64) -> bool
    requires log { IsLogAt table.now log (log_said table.now log) }
    requires keys { HasKeys table.now log }
    ensures { result ≡ is_some (find (leads_to ino) (logged_names table.now log)) }
{
    match log {
        Some(tree) => find_logged(table, &tree, &Sought::Of(ino)).is_some(),
        None => false,
    }
}

/// Whether an inode is there after replay: the root directory, or one with a name (after fixup_inode_link_counts of
/// fs/btrfs/tree-log.c).
pub(crate) fn has_inode(table: &BlockTable, committed: &Tree, log: Option<Tree>, ino: u64) -> bool
    requires { IsRecovered table.now committed.now log }
    ensures { result ≡ is_some (get (replay (seen table.now committed.now) (log_said table.now log)).inodes ino) }
{
    ino == FIRST_FREE || has_name(table, committed, log, ino)
}

/// Whether an inode is a directory by the log's item of it, or else by the committed subvolume's.
fn is_dir_record(table: &BlockTable, committed: &Tree, log: Option<Tree>, ino: u64) -> bool
    requires { IsRecovered table.now committed.now log }
    ensures { result ≡ is_dir_there (replayed_record (seen table.now committed.now) (log_said table.now log) ino) }
{
    match mode_of(table, log, ino) {
        Some(mode) => mode == DIR_MODE,
        None => is_dir(table, committed, ino),
    }
}

/// The mode of an inode that the log has.
fn mode_of(table: &BlockTable, log: Option<Tree>, ino: u64) -> Option<u32>
    requires { IsLogAt table.now log (log_said table.now log) }
    ensures { result ≡ option_map (λ v. v.mode) (value_said table.now log ino) }
{
    match log {
        Some(tree) => logged_mode(table, &tree, ino),
        None => None,
    }
}

/// Whether an inode is there after replay and is a directory.
pub(crate) fn is_dir_after(
    table: &BlockTable,
    committed: &Tree,
    log: Option<Tree>,
    ino: u64,
) -> bool
    requires { IsRecovered table.now committed.now log }
    ensures { result ≡ is_dir_at (replay (seen table.now committed.now) (log_said table.now log)) ino }
{
    has_inode(table, committed, log, ino) && is_dir_record(table, committed, log, ino)
}
