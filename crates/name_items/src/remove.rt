//! One name taken out of a subvolume.
ghost use Rattle.std.specs.Prelude.{◌≡◌, ◌≤◌, length};
ghost use Rattle.block_table.specs.Table.{free_blocks};
ghost use Rattle.tree_range.specs.Shape.{IsTree, tree_items, tree_reach};
ghost use Rattle.tree_frame.specs.Frame.{AreCurrent};
ghost use Rattle.flat_model.specs.Names.{remove_name as without_name};
ghost use Rattle.flat_model.specs.Volume.{Subvolume};
ghost use Rattle.table_volume.specs.Edited.{Makes};
ghost use Rattle.table_volume.specs.Gives.{GivesSubvolume, sub_reach};
ghost use Rattle.item_edit.specs.ItemEdit.{bytes_under};
ghost use Rattle.name_items.specs.Names.{MayRemoveName, name_of, ref_key as key_of_ref};
ghost use Rattle.name_items.specs.Places.{CutsRef, HasRef};

use crate::cut::{cut_far, cut_hashed, cut_near};
use crate::entry::NameEntry;
use crate::items::{hashed_key, indexed_key, ref_key};
use blk_base::format::DIR_MODE;
use block_table::{BlockTable, SubState, Tree};
use item_edit::{inode_at, remove_item, write_inode};
use item_inode::InodeItem;

/// Cuts a name's entry out of the item of its inode.
fn cut_ref(table: &mut BlockTable, tree: &mut Tree, name: &NameEntry<'_>)
    requires tree { IsTree table.old tree.old }
    requires current { AreCurrent table.old (tree_reach table.old tree.old) }
    requires has { HasRef (tree_items table.old tree.old) (name_of name.now) }
    requires short { length (bytes_under (key_of_ref (name_of name.now)) (tree_items table.old tree.old)) ≤ 3970 }
    requires spare { 17 ≤ table.old.spare }
    requires free { 17 ≤ free_blocks table.old }
    ensures { CutsRef table.old table.new tree.old tree.new (name_of name.now) }
{
    let key = ref_key(name);
    if name.near {
        cut_near(table, tree, key, name);
    } else {
        cut_far(table, tree, key, name);
    }
}

/// Takes a name out of a subvolume that has it: its entry with its inode, those in its directory by hash and by index, twice
/// its length from the directory's size, and one from the names of its inode, which for a directory stay 1. No other name
/// moves, and an inode without names stays ("INODE_REF", "INODE_EXTREF", "DIR_ITEM", "DIR_INDEX" and "INODE_ITEM" of the
/// on-disk format). It takes 85 blocks and buffers at most.
pub fn remove_name(table: &mut BlockTable, sub: &mut SubState, name: &NameEntry<'_>)
    requires may { (s : Subvolume) × GivesSubvolume table.old sub.old.tree s × MayRemoveName s (name_of name.now) }
    requires current { AreCurrent table.old (sub_reach table.old sub.old.tree) }
    requires spare { 85 ≤ table.old.spare }
    requires free { 85 ≤ free_blocks table.old }
    ensures made { (s : Subvolume) → GivesSubvolume table.old sub.old.tree s → MayRemoveName s (name_of name.now)
        → Makes table.old table.new sub.old sub.new 85 (record s { names = without_name (name_of name.now) s.names }) }
    ensures next_ino { sub.new.next_ino ≡ sub.old.next_ino }
    ensures next_index { sub.new.next_index ≡ sub.old.next_index }
{
    let dir = inode_at(table, &sub.tree, name.dir);
    let inode = inode_at(table, &sub.tree, name.ino);
    let running = sub.running;
    cut_ref(table, &mut sub.tree, name);
    cut_hashed(table, &mut sub.tree, hashed_key(name), name);
    remove_item(table, &mut sub.tree, indexed_key(name));
    let sized = InodeItem {
        size: dir.size - 2 * name.bytes.len() as u64,
        transid: running,
        ..dir
    };
    write_inode(table, &mut sub.tree, name.dir, &sized);
    if inode.mode != DIR_MODE {
        let linked = InodeItem {
            nlink: inode.nlink - 1,
            transid: running,
            ..inode
        };
        write_inode(table, &mut sub.tree, name.ino, &linked);
    }
}
