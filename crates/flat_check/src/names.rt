//! Whether each name is right among the names and inodes of its subvolume.
ghost use Rattle.std.specs.Prelude.{◌≡◌, ◌↔◌, ◌&&◌, ℕ, Bool, List, Contains, IsTrue, count_by, nat_eq, bytes_eq};
ghost use Rattle.flat_model.specs.Names.{FlatName};
ghost use Rattle.flat_sub.specs.View.{name_view, sub_view, IsWellKept};
ghost use Rattle.flat_check.specs.Parts.{IsPlaced, IsAlone, HasItemsThatFit, IsRightName};

use crate::items::has_items_that_fit;
use crate::ways::ROOT;
use blk_base::limits::GREATEST_NUMBER;
use flat_model::NameAt;
use flat_sub::FlatSub;

/// How many of these names stand in the slot of a name, which is its directory and its bytes.
fn count_in_slot(names: &Vec<NameAt>, slot: &NameAt) -> usize
    ensures { result ≡ count_by (λ name. nat_eq name.dir.0 slot.now.dir.0 && bytes_eq name.name slot.now.name) names.now.items }
{
    names
        .iter()
        .filter(|name| name.dir.0 == slot.dir.0 && name.name == slot.name)
        .count()
}

/// How many of these names stand at the index of a name, in its directory.
fn count_at_index(names: &Vec<NameAt>, place: &NameAt) -> usize
    ensures { result ≡ count_by (λ name. nat_eq name.dir.0 place.now.dir.0 && nat_eq name.index place.now.index) names.now.items }
{
    names
        .iter()
        .filter(|name| name.dir.0 == place.dir.0 && name.index == place.index)
        .count()
}

/// Whether a name is where it may be: its inode is there and isn't the root directory, its directory is there and is one,
/// and its index is in its range ("INODE_REF" and "DIR_INDEX" of the on-disk format).
fn is_placed(sub: &FlatSub, name: &NameAt) -> bool
    ensures { (near : Bool) → (IsTrue result ↔ IsPlaced (sub_view sub.now).sub (name_view name.now near)) }
{
    let _name = name.name.as_bytes();
    name.ino.0 != ROOT
        && name.index >= 2
        && name.index <= GREATEST_NUMBER
        && sub.is_dir(name.dir.0)
        && sub.kind(name.ino.0).is_some()
}

/// Whether no two names stand in a name's slot, nor at its index ("DIR_ITEM" and "DIR_INDEX" of the on-disk format).
fn is_alone(sub: &FlatSub, name: &NameAt) -> bool
    requires { IsWellKept sub.now }
    ensures { (near : Bool) → (IsTrue result ↔ IsAlone (sub_view sub.now).sub.names (name_view name.now near)) }
{
    count_in_slot(&sub.names, name) <= 1 && count_at_index(&sub.names, name) <= 1
}

/// Whether a name is right among the names and inodes of its subvolume.
fn is_right(sub: &FlatSub, name: &NameAt) -> bool
    requires { IsWellKept sub.now }
    ensures { (near : Bool) → (IsTrue result ↔ IsRightName (sub_view sub.now).sub (name_view name.now near)) }
{
    is_placed(sub, name) && is_alone(sub, name) && has_items_that_fit(sub, name)
}

/// Whether each name of a subvolume is right among its names and inodes.
pub(crate) fn names_are_right(sub: &FlatSub) -> bool
    requires { IsWellKept sub.now }
    ensures { IsTrue result ↔ ((name : FlatName) → Contains (sub_view sub.now).sub.names name → IsRightName (sub_view sub.now).sub name) }
{
    for name in &sub.names {
        if !is_right(sub, name) {
            return false;
        }
    }
    true
}
