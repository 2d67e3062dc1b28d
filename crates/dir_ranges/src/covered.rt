//! Which indexes of directories the ranges of a log cover.
ghost use Rattle.std.specs.Prelude.{◌≡◌};
ghost use Rattle.log_image.specs.LogItems.{ranges_in};
ghost use Rattle.logged_volume.specs.FlatLog.{is_covered};
ghost use Rattle.tree_range.specs.Shape.{IsTree, tree_items};
ghost use Rattle.dir_ranges.specs.Ranges.{does_reach};

use crate::place::Place;
use blk_base::Key;
use blk_base::format::DIR_LOG_INDEX;
use block_table::{BlockTable, Tree};
use item_dir::DirRange;
use tree_range::range;

/// Whether the range of an item reaches an index.
fn does_reach(bytes: &[u8], index: u64) -> bool
    ensures { result ≡ does_reach index bytes.now }
{
    match DirRange::decode(bytes) {
        Ok(last) => index <= last,
        Err(_) => index == 0,
    }
}

/// Whether a range of the log covers a place: one of its directory that begins there or before ("DIR_LOG_INDEX").
pub(crate) fn is_covered(table: &BlockTable, log: &Tree, place: Place) -> bool
    requires { IsTree table.now log.now }
    ensures { result ≡ is_covered (ranges_in (tree_items table.now log.now)) place.dir place.index }
{
    let first = Key {
        objectid: place.dir,
        kind: DIR_LOG_INDEX,
        offset: 0,
    };
    let last = Key {
        offset: place.index,
        ..first
    };
    for (_key, bytes) in range(table, log, &first, &last) {
        if does_reach(bytes, place.index) {
            return true;
        }
    }
    false
}
