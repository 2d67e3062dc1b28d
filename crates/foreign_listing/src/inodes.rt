//! Inodes by their numbers.
ghost use Rattle.std.specs.Prelude.{◌≡◌};
ghost use Rattle.foreign_listing.specs.Lines.{incoherent, inode_in, is_item_of};
ghost use Rattle.foreign_listing.specs.Names.{at_row};

use crate::by_inode::of_inode;
use crate::tree::Tree;
use blk_base::{Ino, SubId};
use foreign_format::{ForeignFault, Inode};
use foreign_items::InodeRow;

/// The fault of an inode that can't be listed.
pub(crate) fn incoherent(sub: u64, ino: u64) -> ForeignFault
    ensures { result ≡ incoherent sub ino }
{
    ForeignFault::Incoherent(SubId(sub), Ino(ino))
}

/// What a row's item says, or its fault under the item's leaf and key.
fn inode_at(row: &InodeRow) -> Result<Inode, ForeignFault>
    ensures { result ≡ at_row row.now.leaf row.now.key row.now.inode }
{
    match row.inode {
        Ok(inode) => Ok(inode),
        Err(fault) => Err(ForeignFault::Item(row.leaf, row.key, fault)),
    }
}

/// Whether the row is the inode item of this number.
fn is_item_of(row: &InodeRow, ino: u64) -> bool
    ensures { result ≡ is_item_of row.now ino }
{
    row.key.objectid == ino && row.key.offset == 0
}

/// The inode of this number, or the fault of its item; an inode without an item can't be listed.
pub(crate) fn inode_of(tree: &Tree, ino: u64) -> Result<Inode, ForeignFault>
    ensures { result ≡ inode_in tree.now.sub tree.now.inodes.items ino }
{
    for row in of_inode(&tree.inodes, ino) {
        if is_item_of(row, ino) {
            return inode_at(row);
        }
    }
    Err(incoherent(tree.sub, ino))
}
