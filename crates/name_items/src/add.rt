//! One name added to a subvolume.
ghost use Rattle.std.specs.Prelude.{◌≡◌, ◌≤◌};
ghost use Rattle.block_table.specs.Table.{free_blocks};
ghost use Rattle.tree_frame.specs.Frame.{AreCurrent};
ghost use Rattle.flat_model.specs.Names.{add_name as with_name};
ghost use Rattle.flat_model.specs.Volume.{Subvolume};
ghost use Rattle.table_volume.specs.Edited.{Makes};
ghost use Rattle.table_volume.specs.Gives.{GivesSubvolume, sub_reach};
ghost use Rattle.name_items.specs.Names.{MayAddName, name_of};
ghost use Rattle.name_items.specs.Edits.{kind_of_mode};

use crate::entry::NameEntry;
use crate::items::{add_entries, add_ref};
use blk_base::format::{DIR_ENTRY, DIR_MODE, FILE_ENTRY, LINK_ENTRY, LINK_MODE};
use block_table::{BlockTable, SubState};
use item_edit::{inode_at, write_inode};
use item_inode::InodeItem;

/// The type of the entries that lead to an inode of this mode ("DIR_ITEM" of the on-disk format).
pub(crate) fn entry_kind(mode: u32) -> u8
    ensures { result ≡ kind_of_mode mode }
{
    if mode == DIR_MODE {
        DIR_ENTRY
    } else if mode == LINK_MODE {
        LINK_ENTRY
    } else {
        FILE_ENTRY
    }
}

/// Adds a name to a subvolume: its entry with its inode, near or far as it says, those in its directory by hash and by
/// index, twice its length to the directory's size, and one to the names of its inode, which for a directory stay 1
/// ("INODE_REF", "INODE_EXTREF", "DIR_ITEM", "DIR_INDEX" and "INODE_ITEM" of the on-disk format). It takes 85 blocks and
/// buffers at most.
pub fn add_name(table: &mut BlockTable, sub: &mut SubState, name: &NameEntry<'_>)
    requires may { (s : Subvolume) × GivesSubvolume table.old sub.old.tree s × MayAddName s (name_of name.now) }
    requires current { AreCurrent table.old (sub_reach table.old sub.old.tree) }
    requires spare { 85 ≤ table.old.spare }
    requires free { 85 ≤ free_blocks table.old }
    ensures made { (s : Subvolume) → GivesSubvolume table.old sub.old.tree s → MayAddName s (name_of name.now)
        → Makes table.old table.new sub.old sub.new 85 (record s { names = with_name (name_of name.now) s.names }) }
    ensures next_ino { sub.new.next_ino ≡ sub.old.next_ino }
    ensures next_index { sub.new.next_index ≡ sub.old.next_index }
{
    let dir = inode_at(table, &sub.tree, name.dir);
    let inode = inode_at(table, &sub.tree, name.ino);
    let running = sub.running;
    add_ref(table, &mut sub.tree, name);
    add_entries(table, &mut sub.tree, name, entry_kind(inode.mode), running);
    let sized = InodeItem {
        size: dir.size + 2 * name.bytes.len() as u64,
        transid: running,
        ..dir
    };
    write_inode(table, &mut sub.tree, name.dir, &sized);
    if inode.mode != DIR_MODE {
        let linked = InodeItem {
            nlink: inode.nlink + 1,
            transid: running,
            ..inode
        };
        write_inode(table, &mut sub.tree, name.ino, &linked);
    }
}
