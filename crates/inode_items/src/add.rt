//! One inode added to a subvolume.
ghost use Rattle.std.specs.Prelude.{◌≡◌, ◌≤◌, ◌<◌, ◌+◌, ◌^◌, Some, length};
ghost use Rattle.blk_base.specs.Extents.{inline_bytes};
ghost use Rattle.blk_base.specs.Keys.{extent_data};
ghost use Rattle.block_table.specs.Table.{free_blocks};
ghost use Rattle.tree_range.specs.Shape.{IsTree, tree_reach};
ghost use Rattle.tree_frame.specs.Frame.{AreCurrent};
ghost use Rattle.flat_model.specs.Operations.{with_record};
ghost use Rattle.flat_model.specs.Volume.{Subvolume};
ghost use Rattle.item_inode.specs.Inode.{inode_view};
ghost use Rattle.item_edit.specs.ItemEdit.{IsItemEdit};
ghost use Rattle.table_volume.specs.Edited.{Makes};
ghost use Rattle.table_volume.specs.Gives.{GivesSubvolume, sub_reach};
ghost use Rattle.volume_image.specs.Subvolume.{make_key};
ghost use Rattle.inode_items.specs.Inodes.{IsNewItem, KeepsNewLimits, MayAddInode, new_record};

use blk_base::format::{DIR_MODE, EXTENT_DATA, FILE_MODE, LINK_MODE};
use blk_base::{Ino, Key};
use block_table::{BlockTable, SubState, Tree};
use item_edit::{write_inode, write_item};
use item_extent::put_inline;
use item_inode::InodeItem;

/// A new inode: a file without bytes, a directory without names, or a symlink with its target, of 1 to 1023 bytes.
#[derive(Clone, Copy, Debug)]
pub enum NewInode<'a> {
    File,
    Dir,
    Link(&'a [u8]),
}

/// The inode item of a new inode, made in this transaction.
fn new_item(new: NewInode<'_>, running: u64) -> InodeItem
    requires { KeepsNewLimits new }
    ensures { IsNewItem new.entry running (inode_view result) }
{
    let file = InodeItem {
        generation: running,
        transid: running,
        size: 0,
        nbytes: 0,
        nlink: 0,
        mode: FILE_MODE,
    };
    match new {
        NewInode::File => file,
        NewInode::Dir => InodeItem {
            nlink: 1,
            mode: DIR_MODE,
            ..file
        },
        NewInode::Link(target) => InodeItem {
            size: target.len() as u64,
            nbytes: target.len() as u64,
            mode: LINK_MODE,
            ..file
        },
    }
}

/// Writes a symlink's target by way of these bytes, 21 more than it has.
fn write_target_by(
    table: &mut BlockTable,
    tree: &mut Tree,
    ino: Ino,
    target: &[u8],
    running: u64,
    bytes: &mut [u8],
)
    requires tree { IsTree table.old tree.old }
    requires current { AreCurrent table.old (tree_reach table.old tree.old) }
    requires some { 1 ≤ length target.now }
    requires short { length target.now ≤ 1023 }
    requires room { length bytes.old ≡ 21 + length target.now }
    requires spare { 17 ≤ table.old.spare }
    requires free { 17 ≤ free_blocks table.old }
    ensures { IsItemEdit table.old table.new tree.old tree.new (make_key ino.0 extent_data 0) (Some (inline_bytes running target.now)) }
{
    put_inline(running, target, bytes);
    let key = Key {
        objectid: ino.0,
        kind: EXTENT_DATA,
        offset: 0,
    };
    write_item(table, tree, key, bytes);
}

/// Writes a symlink's target, of 1 to 1023 bytes ("EXTENT_DATA" of the on-disk format).
fn write_target(table: &mut BlockTable, tree: &mut Tree, ino: Ino, target: &[u8], running: u64)
    requires tree { IsTree table.old tree.old }
    requires current { AreCurrent table.old (tree_reach table.old tree.old) }
    requires some { 1 ≤ length target.now }
    requires short { length target.now ≤ 1023 }
    requires spare { 17 ≤ table.old.spare }
    requires free { 17 ≤ free_blocks table.old }
    ensures edit { IsItemEdit table.old table.new tree.old tree.new (make_key ino.0 extent_data 0) (Some (inline_bytes running target.now)) }
    ensures fits { running < 2 ^ 64 }
{
    let mut bytes = [0; 1044];
    let end = 21 + target.len();
    write_target_by(table, tree, ino, target, running, &mut bytes[..end]);
}

/// Adds an inode to a subvolume, to which no name leads yet, made in the running transaction ("INODE_ITEM" and
/// "EXTENT_DATA" of the on-disk format). It takes 34 blocks and buffers at most.
pub fn add_inode(table: &mut BlockTable, sub: &mut SubState, ino: Ino, new: NewInode<'_>)
    requires may { (s : Subvolume) × GivesSubvolume table.old sub.old.tree s × MayAddInode s ino.0 }
    requires new { KeepsNewLimits new }
    requires current { AreCurrent table.old (sub_reach table.old sub.old.tree) }
    requires spare { 34 ≤ table.old.spare }
    requires free { 34 ≤ free_blocks table.old }
    ensures made { (s : Subvolume) → GivesSubvolume table.old sub.old.tree s → MayAddInode s ino.0
        → Makes table.old table.new sub.old sub.new 34 (with_record s ino.0 (new_record new.entry)) }
    ensures next_ino { sub.new.next_ino ≡ sub.old.next_ino }
    ensures next_index { sub.new.next_index ≡ sub.old.next_index }
{
    let running = sub.running;
    let item = new_item(new, running);
    write_inode(table, &mut sub.tree, ino, &item);
    if let NewInode::Link(target) = new {
        write_target(table, &mut sub.tree, ino, target, running);
    }
}
