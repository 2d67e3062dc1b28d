//! Whether each inode is right among the names of its subvolume.
ghost use Rattle.std.specs.Prelude.{◌≡◌, ◌≢◌, ◌↔◌, ℕ, IsTrue, Some, length};
ghost use Rattle.std.specs.FinMap.{get};
ghost use Rattle.flat_model.specs.Records.{InodeRecord, is_dir_record};
ghost use Rattle.flat_model.specs.Names.{links_of};
ghost use Rattle.flat_model.specs.Coherent.{IsLinkCount, IsInoNumber};
ghost use Rattle.flat_sub.specs.View.{sub_view, IsWellKept};
ghost use Rattle.flat_check.specs.Parts.{reaches_root, IsLinked, IsRightInode};

use crate::ways::{ROOT, reaches_root};
use blk_base::limits::{GREATEST_NUMBER, MOST_LINKS};
use flat_model::Kind;
use flat_record::Inode;
use flat_sub::FlatSub;

/// Whether a number is one that an inode may have ("Objectids" of the on-disk format, own limit).
fn is_ino_number(ino: u64) -> bool
    ensures { IsTrue result ↔ IsInoNumber ino }
{
    ino >= ROOT && ino <= GREATEST_NUMBER
}

/// Whether so many names are right for an inode that isn't the root directory: one for a directory, 1 to 65,535 for a file
/// or symlink ("INODE_ITEM": nlink).
fn is_link_count(inode: &Inode, count: usize) -> bool
    ensures { IsTrue result ↔ IsLinkCount inode.now count }
{
    match inode.kind() {
        Kind::Dir => count == 1,
        Kind::File | Kind::Link => count >= 1 && count <= MOST_LINKS,
    }
}

/// Whether an inode has as many names as its kind allows; the root directory may have any.
fn has_right_links(sub: &FlatSub, ino: u64, inode: &Inode) -> bool
    requires { IsWellKept sub.now }
    ensures { IsTrue result ↔ (ino ≢ 256 → IsLinkCount inode.now (links_of (sub_view sub.now).sub.names ino)) }
{
    if ino == ROOT {
        return true;
    }
    is_link_count(inode, sub.links(ino))
}

/// Whether the way up from an inode ends at the root directory, if it is a directory ("INODE_REF" of the on-disk format).
fn has_way_up(sub: &FlatSub, ino: u64, inode: &Inode) -> bool
    requires { IsWellKept sub.now }
    ensures { IsTrue result ↔ (IsTrue (is_dir_record inode.now) → IsTrue (reaches_root (sub_view sub.now).sub.names (length (sub_view sub.now).sub.names) ino)) }
{
    match inode.kind() {
        Kind::Dir => reaches_root(sub, ino),
        Kind::File | Kind::Link => true,
    }
}

/// Whether an inode stands rightly among the names of its subvolume: its number is in its range, it has as many names as
/// its kind allows, and from a directory the way up ends at the root directory.
fn is_linked(sub: &FlatSub, ino: u64, inode: &Inode) -> bool
    requires { IsWellKept sub.now }
    ensures { IsTrue result ↔ IsLinked (sub_view sub.now).sub.names ino inode.now }
{
    is_ino_number(ino) && has_right_links(sub, ino, inode) && has_way_up(sub, ino, inode)
}

/// Whether an inode is right, by itself and among the names of its subvolume.
fn is_right(sub: &FlatSub, ino: u64, inode: &Inode) -> bool
    requires { IsWellKept sub.now }
    ensures { IsTrue result ↔ IsRightInode (sub_view sub.now).sub.names ino inode.now }
{
    is_linked(sub, ino, inode) && inode.keeps_limits() && inode.attributes_fit()
}

/// Whether each inode of a subvolume is right among its names.
pub(crate) fn inodes_are_right(sub: &FlatSub) -> bool
    requires { IsWellKept sub.now }
    ensures { IsTrue result ↔ ((ino : ℕ) (inode : InodeRecord) → get (sub_view sub.now).sub.inodes ino ≡ Some inode → IsRightInode (sub_view sub.now).sub.names ino inode) }
{
    for entry in &sub.inodes {
        if !is_right(sub, entry.0, &entry.1) {
            return false;
        }
    }
    true
}
