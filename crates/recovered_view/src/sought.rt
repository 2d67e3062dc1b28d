//! The first of some names that items of refs say, found without memory.
ghost use Rattle.std.specs.Prelude.{◌≡◌, map, option_map};
ghost use Rattle.std.specs.List.{find, flat_map};
ghost use Rattle.log_image.specs.LogItems.{far_name, names_in_item, near_name};
ghost use Rattle.recovered_view.specs.Kept.{name_of_parts};
ghost use Rattle.recovered_view.specs.Sought.{CanBeSought, is_sought};

use crate::ranges::is_kept;
use blk_base::Key;
use blk_base::format::{INODE_EXTREF, INODE_REF};
use block_table::{BlockTable, Tree};
use item_inode::{ExtRefs, Refs};
use tree_range::Range;

/// Which names are looked for.
#[derive(Clone, Copy)]
pub(crate) enum Sought<'n> {
    /// Those with these bytes in a directory.
    InSlot(u64, &'n [u8]),
    /// Those of an inode.
    Of(u64),
    /// Those of the committed subvolume that replay of a log keeps.
    Kept(&'n BlockTable, Option<Tree>),
}

/// Whether a name is looked for.
fn is_sought(sought: &Sought<'_>, dir: u64, index: u64, name: &[u8], ino: u64) -> bool
    requires { CanBeSought sought.now }
    ensures { result ≡ is_sought sought.now (name_of_parts dir index name.now ino) }
{
    match *sought {
        Sought::InSlot(slot_dir, slot_name) => dir == slot_dir && name == slot_name,
        Sought::Of(of) => ino == of,
        Sought::Kept(table, log) => is_kept(table, log, dir, index, name, ino),
    }
}

/// The inode of the first near name that is looked for.
fn find_near(key: &Key, refs: Refs<'_>, sought: &Sought<'_>) -> Option<u64>
    requires { CanBeSought sought.now }
    ensures { result ≡ option_map (λ n. n.ino) (find (is_sought sought.now) (map (near_name key.now) refs.entry)) }
{
    for (index, name) in refs {
        if is_sought(sought, key.offset, index, name, key.objectid) {
            return Some(key.objectid);
        }
    }
    None
}

/// The inode of the first far name that is looked for.
fn find_far(key: &Key, refs: ExtRefs<'_>, sought: &Sought<'_>) -> Option<u64>
    requires { CanBeSought sought.now }
    ensures { result ≡ option_map (λ n. n.ino) (find (is_sought sought.now) (map (far_name key.now) refs.entry)) }
{
    for (dir, index, name) in refs {
        if is_sought(sought, dir.0, index, name, key.objectid) {
            return Some(key.objectid);
        }
    }
    None
}

/// The inode of the first name of an item that is looked for.
fn find_in_item(key: &Key, bytes: &[u8], sought: &Sought<'_>) -> Option<u64>
    requires { CanBeSought sought.now }
    ensures { result ≡ option_map (λ n. n.ino) (find (is_sought sought.now) (names_in_item (key.now, bytes.now))) }
{
    match key.kind {
        INODE_REF => match Refs::open(key, bytes) {
            Ok(refs) => find_near(key, refs, sought),
            Err(_) => None,
        },
        INODE_EXTREF => match ExtRefs::open(bytes) {
            Ok(refs) => find_far(key, refs, sought),
            Err(_) => None,
        },
        _ => None,
    }
}

/// The inode of the first name of these items that is looked for.
pub(crate) fn find_name(items: Range<'_>, sought: &Sought<'_>) -> Option<u64>
    requires { CanBeSought sought.now }
    ensures { result ≡ option_map (λ n. n.ino) (find (is_sought sought.now) (flat_map names_in_item items.entry)) }
{
    for (key, bytes) in items {
        let found = find_in_item(&key, bytes, sought);
        if found.is_some() {
            return found;
        }
    }
    None
}
