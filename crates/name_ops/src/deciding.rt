//! What a change of names comes to: whether a new name is near, and whether its items hold it.
ghost use Rattle.std.specs.Prelude.{◌≡◌, ◌≢◌, ◌≤◌, ℕ, [], length};
ghost use Rattle.blk_base.specs.Crc.{extref_hash_of, name_hash_of};
ghost use Rattle.flat_model.specs.Lengths.{dir_item_length, extref_item_length, ref_item_length};
ghost use Rattle.flat_model.specs.Operations.{add_names, do_collide, has_room_near, is_crowded};
ghost use Rattle.flat_model.specs.Volume.{Subvolume};
ghost use Rattle.tree_range.specs.Shape.{IsTree};
ghost use Rattle.name_walk.specs.Given.{GivesCoherent};
ghost use Rattle.name_items.specs.Names.{name_of};
ghost use Rattle.name_ops.specs.Changes.{IsChange, names_told, remove_names};
ghost use Rattle.name_ops.specs.Sums.{IsFew};

use crate::sums::{far_sum, hashed_sum, near_sum};
use blk_base::format::MOST_ITEM_BYTES;
use blk_base::{extref_hash, name_hash};
use block_table::{BlockTable, Tree};
use name_items::NameEntry;
use name_walk::{dir_item_len, extref_item_len, ref_item_len};

/// The most bytes of an INODE_REF to which a name is added.
const MOST_REF_BYTES: usize = 2000;

/// How many bytes the item of a directory and a hash has behind a change of names ("DIR_ITEM").
fn dir_len_after(
    table: &BlockTable,
    tree: &Tree,
    gone: &[NameEntry<'_>],
    made: &[NameEntry<'_>],
    dir: u64,
    hash: u32,
) -> usize
    requires given { (sub : Subvolume) × GivesCoherent table.now tree.now sub × IsChange sub.names gone.now made.now }
    requires gone { IsFew gone.now }
    requires made { IsFew made.now }
    ensures { (sub : Subvolume) → GivesCoherent table.now tree.now sub → IsChange sub.names gone.now made.now
        → result ≡ dir_item_length (add_names (remove_names sub.names (names_told gone.now)) (names_told made.now)) dir hash }
{
    let left = dir_item_len(table, tree, dir, hash) - hashed_sum(gone, dir, hash);
    left + hashed_sum(made, dir, hash)
}

/// How many bytes the item of the far names of an inode with a hash has behind a change of names ("INODE_EXTREF").
fn extref_len_after(
    table: &BlockTable,
    tree: &Tree,
    gone: &[NameEntry<'_>],
    made: &[NameEntry<'_>],
    ino: u64,
    hash: u32,
) -> usize
    requires given { (sub : Subvolume) × GivesCoherent table.now tree.now sub × IsChange sub.names gone.now made.now }
    requires gone { IsFew gone.now }
    requires made { IsFew made.now }
    ensures { (sub : Subvolume) → GivesCoherent table.now tree.now sub → IsChange sub.names gone.now made.now
        → result ≡ extref_item_length (add_names (remove_names sub.names (names_told gone.now)) (names_told made.now)) ino hash }
{
    let left = extref_item_len(table, tree, ino, hash) - far_sum(gone, ino, hash);
    left + far_sum(made, ino, hash)
}

/// Whether a name may be near once others are gone ("INODE_REF").
pub(crate) fn has_room_near(
    table: &BlockTable,
    tree: &Tree,
    gone: &[NameEntry<'_>],
    name: &NameEntry<'_>,
) -> bool
    requires given { (sub : Subvolume) × GivesCoherent table.now tree.now sub × IsChange sub.names gone.now [] }
    requires gone { IsFew gone.now }
    requires not_root { name.now.ino.0 ≢ 256 }
    requires short { length name.now.bytes.now ≤ 255 }
    ensures { (sub : Subvolume) → GivesCoherent table.now tree.now sub → IsChange sub.names gone.now []
        → result ≡ has_room_near (remove_names sub.names (names_told gone.now)) (name_of name.now) }
{
    let (ino, dir) = (name.ino.0, name.dir.0);
    let left = ref_item_len(table, tree, ino, dir) - near_sum(gone, ino, dir);
    left + (10 + name.bytes.len()) <= MOST_REF_BYTES
}

/// Whether an item that has the name has more bytes behind a change of names than a leaf holds ("DIR_ITEM",
/// "INODE_EXTREF").
fn is_crowded(
    table: &BlockTable,
    tree: &Tree,
    gone: &[NameEntry<'_>],
    made: &[NameEntry<'_>],
    name: &NameEntry<'_>,
) -> bool
    requires given { (sub : Subvolume) × GivesCoherent table.now tree.now sub × IsChange sub.names gone.now made.now }
    requires gone { IsFew gone.now }
    requires made { IsFew made.now }
    ensures { (sub : Subvolume) → GivesCoherent table.now tree.now sub → IsChange sub.names gone.now made.now
        → result ≡ is_crowded (add_names (remove_names sub.names (names_told gone.now)) (names_told made.now)) (name_of name.now) }
{
    let hash = name_hash(name.bytes);
    if dir_len_after(table, tree, gone, made, name.dir.0, hash) > MOST_ITEM_BYTES {
        return true;
    }
    if name.near {
        return false;
    }
    let hash = extref_hash(name.dir, name.bytes);
    extref_len_after(table, tree, gone, made, name.ino.0, hash) > MOST_ITEM_BYTES
}

/// Whether a change of names would make an item that no leaf holds ("DIR_ITEM", "INODE_EXTREF").
pub(crate) fn do_collide(
    table: &BlockTable,
    tree: &Tree,
    gone: &[NameEntry<'_>],
    made: &[NameEntry<'_>],
) -> bool
    requires given { (sub : Subvolume) × GivesCoherent table.now tree.now sub × IsChange sub.names gone.now made.now }
    requires gone { IsFew gone.now }
    requires made { IsFew made.now }
    ensures { (sub : Subvolume) → GivesCoherent table.now tree.now sub → IsChange sub.names gone.now made.now
        → result ≡ do_collide (remove_names sub.names (names_told gone.now)) (names_told made.now) }
{
    for name in made {
        if is_crowded(table, tree, gone, made, name) {
            return true;
        }
    }
    false
}
