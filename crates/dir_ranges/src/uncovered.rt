//! The first of an inode's names whose index no range of the log covers, found without memory.
ghost use Rattle.std.specs.Prelude.{◌≡◌, map, find};
ghost use Rattle.log_image.specs.LogItems.{ranges_in};
ghost use Rattle.tree_range.specs.Between.{items_between};
ghost use Rattle.tree_range.specs.Shape.{IsTree, tree_items};
ghost use Rattle.current_view.specs.Told.{far_told, near_told};
ghost use Rattle.dir_ranges.specs.Gone.{first_uncovered, is_uncovered, last_ref, place_of, places_told};

use crate::covered::is_covered;
use crate::place::Place;
use blk_base::format::{INODE_EXTREF, INODE_REF};
use blk_base::{Ino, Key};
use block_table::{BlockTable, Tree};
use item_inode::{ExtRefs, Refs};
use tree_range::range;

/// A place that no range of the log covers, and the key of the item of refs that says it (own).
#[derive(Clone, Copy)]
pub struct Uncovered {
    pub key: Key,
    pub place: Place,
}

/// The first place of near names that no range covers.
fn near_place(table: &BlockTable, log: &Tree, key: &Key, refs: Refs<'_>) -> Option<Place>
    requires { IsTree table.now log.now }
    ensures { result ≡ find (is_uncovered (ranges_in (tree_items table.now log.now))) (map place_of (map (near_told key.now) refs.entry)) }
{
    for (index, _name) in refs {
        let place = Place {
            dir: key.offset,
            index,
        };
        if !is_covered(table, log, place) {
            return Some(place);
        }
    }
    None
}

/// The first place of far names that no range covers.
fn far_place(table: &BlockTable, log: &Tree, key: &Key, refs: ExtRefs<'_>) -> Option<Place>
    requires { IsTree table.now log.now }
    ensures { result ≡ find (is_uncovered (ranges_in (tree_items table.now log.now))) (map place_of (map (far_told key.now) refs.entry)) }
{
    for (dir, index, _name) in refs {
        let place = Place { dir: dir.0, index };
        if !is_covered(table, log, place) {
            return Some(place);
        }
    }
    None
}

/// The first place that an item of refs says and no range covers ("INODE_REF", "INODE_EXTREF" of the on-disk format).
fn place_in(table: &BlockTable, log: &Tree, key: &Key, bytes: &[u8]) -> Option<Place>
    requires { IsTree table.now log.now }
    ensures { result ≡ find (is_uncovered (ranges_in (tree_items table.now log.now))) (places_told (key.now, bytes.now)) }
{
    if key.kind == INODE_REF {
        return match Refs::open(key, bytes) {
            Ok(refs) => near_place(table, log, key, refs),
            Err(_) => None,
        };
    }
    match ExtRefs::open(bytes) {
        Ok(refs) => far_place(table, log, key, refs),
        Err(_) => None,
    }
}

/// The first place that no range covers, of those that refs of the inode say whose keys are this one or above (own).
pub(crate) fn first_uncovered(
    table: &BlockTable,
    log: &Tree,
    committed: &Tree,
    first: &Key,
    ino: Ino,
) -> Option<Uncovered>
    requires log { IsTree table.now log.now }
    requires committed { IsTree table.now committed.now }
    ensures { result ≡ first_uncovered (ranges_in (tree_items table.now log.now))
        (items_between first.now (last_ref ino.0) (tree_items table.now committed.now)) }
{
    let last = Key {
        objectid: ino.0,
        kind: INODE_EXTREF,
        offset: u64::MAX,
    };
    for (key, bytes) in range(table, committed, first, &last) {
        if let Some(place) = place_in(table, log, &key, bytes) {
            return Some(Uncovered { key, place });
        }
    }
    None
}
