//! What the inode item of an inode says.
ghost use Rattle.std.specs.Prelude.{◌≡◌, ◌≢◌, ◌<◌, Some, None, MatchOption, length, nat_lt};
ghost use Rattle.std.specs.FinMap.{get};
ghost use Rattle.std.specs.Option.{option_map};
ghost use Rattle.flat_model.specs.Names.{entries_of, links_of};
ghost use Rattle.flat_model.specs.Records.{InodeRecord, kind_of};
ghost use Rattle.flat_model.specs.Volume.{Subvolume, is_dir_at};
ghost use Rattle.blk_base.specs.Items.{InodeValue, IsInode};
ghost use Rattle.item_inode.specs.Inode.{inode_view};
ghost use Rattle.tree_range.specs.Shape.{IsTree};
ghost use Rattle.volume_image.specs.Subvolume.{mode_of};
ghost use Rattle.name_walk.specs.Given.{GivesCoherent, SaysInode};

use crate::item::inode_bytes;
use blk_base::format::{DIR_MODE, FILE_MODE};
use block_table::{BlockTable, Tree};
use flat_model::Kind;
use item_inode::InodeItem;

/// The inode item that these bytes spell.
fn inode_in(bytes: &[u8]) -> Option<InodeItem>
    ensures { (value : InodeValue) → IsInode bytes.now value → option_map inode_view result ≡ Some value }
{
    match InodeItem::decode(bytes) {
        Ok(item) => Some(item),
        Err(_) => None,
    }
}

/// The inode item of an inode, where the inode is there ("INODE_ITEM" of the on-disk format).
pub fn inode_item(table: &BlockTable, tree: &Tree, ino: u64) -> Option<InodeItem>
    requires { IsTree table.now tree.now }
    ensures { (sub : Subvolume) → GivesCoherent table.now tree.now sub
        → MatchOption result (get sub.inodes ino ≡ None) (λ item. SaysInode sub ino (inode_view item)) }
{
    match inode_bytes(table, tree, ino) {
        Some(bytes) => inode_in(bytes),
        None => None,
    }
}

/// The kind of inode that an inode item tells by its mode, octal 100644 of a file, 40755 of a directory.
fn kind_told(item: &InodeItem) -> Kind
    ensures { (inode : InodeRecord) → item.now.mode ≡ mode_of inode → result ≡ kind_of inode }
{
    match item.mode {
        FILE_MODE => Kind::File,
        DIR_MODE => Kind::Dir,
        _ => Kind::Link,
    }
}

/// What kind of inode has this number, where one has it.
pub fn record_kind(table: &BlockTable, tree: &Tree, ino: u64) -> Option<Kind>
    requires { IsTree table.now tree.now }
    ensures { (sub : Subvolume) → GivesCoherent table.now tree.now sub → result ≡ option_map kind_of (get sub.inodes ino) }
{
    match inode_item(table, tree, ino) {
        Some(item) => Some(kind_told(&item)),
        None => None,
    }
}

/// Whether the inode is there and is a directory.
pub fn is_dir(table: &BlockTable, tree: &Tree, ino: u64) -> bool
    requires { IsTree table.now tree.now }
    ensures { (sub : Subvolume) → GivesCoherent table.now tree.now sub → result ≡ is_dir_at sub ino }
{
    match record_kind(table, tree, ino) {
        Some(Kind::Dir) => true,
        Some(Kind::File) | Some(Kind::Link) | None => false,
    }
}

/// How many names an inode has, 0 where it isn't there; of the root directory 1 ("INODE_ITEM": nlink).
pub fn links(table: &BlockTable, tree: &Tree, ino: u64) -> u32
    requires { IsTree table.now tree.now }
    ensures { (sub : Subvolume) → GivesCoherent table.now tree.now sub → ino ≢ 256 → result ≡ links_of sub.names ino }
{
    match inode_item(table, tree, ino) {
        Some(item) => item.nlink,
        None => 0,
    }
}

/// Whether an inode is a directory with names, which its size tells ("INODE_ITEM": size).
pub fn has_entries(table: &BlockTable, tree: &Tree, ino: u64) -> bool
    requires { IsTree table.now tree.now }
    ensures { (sub : Subvolume) → GivesCoherent table.now tree.now sub → result ≡ nat_lt 0 (length (entries_of sub.names ino)) }
{
    match inode_item(table, tree, ino) {
        Some(item) => item.mode == DIR_MODE && item.size > 0,
        None => false,
    }
}
