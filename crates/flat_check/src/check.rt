//! Whether a subvolume is coherent.
ghost use Rattle.std.specs.Prelude.{◌↔◌, ℕ, IsTrue};
ghost use Rattle.flat_model.specs.Coherent.{IsCoherent};
ghost use Rattle.flat_sub.specs.View.{sub_view, IsWellKept};

use crate::inodes::inodes_are_right;
use crate::names::names_are_right;
use crate::ways::ROOT;
use flat_sub::FlatSub;

/// Whether a subvolume is coherent: its names and inodes keep their limits and fit into items, each name stands in a
/// directory that is there and leads to an inode that is there, each inode has as many names as its kind allows, and from
/// each directory the way up ends at the root directory, inode 256 (file tree of the Btrfs on-disk format, own limits).
/// Takes no memory. It is slow: for each name it goes over all names, and for each directory over all names at each step up.
pub fn is_coherent(sub: &FlatSub) -> bool
    requires { IsWellKept sub.now }
    ensures { IsTrue result ↔ IsCoherent (sub_view sub.now).sub }
{
    sub.is_dir(ROOT) && names_are_right(sub) && inodes_are_right(sub)
}
