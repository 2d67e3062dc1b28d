//! A subvolume that has nothing but its root directory.
ghost use Rattle.std.specs.Prelude.{◌≡◌, [], Some};
ghost use Rattle.blk_base.specs.Entries.{ref_bytes};
ghost use Rattle.blk_base.specs.Keys.{inode_ref};
ghost use Rattle.block_table.specs.Table.{free_blocks};
ghost use Rattle.item_edit.specs.ItemEdit.{IsItemEdit};
ghost use Rattle.item_inode.specs.Inode.{inode_view};
ghost use Rattle.table_volume.specs.Gives.{sub_reach};
ghost use Rattle.table_volume.specs.Operated.{HasRoom};
ghost use Rattle.table_volume.specs.Running.{GivesRun, id_of};
ghost use Rattle.tree_frame.specs.Frame.{AreCurrent, IsEdit, TakesAtMost};
ghost use Rattle.tree_range.specs.Shape.{IsTree, tree_items, tree_reach};
ghost use Rattle.volume_image.specs.Bare.{bare_inode, bare_items, bare_ref};
ghost use Rattle.volume_image.specs.Subvolume.{make_key};
ghost use Rattle.bare_state.specs.Bare.{bare_run};

use crate::empty::empty_tree;
use blk_base::format::{DIR_MODE, DOTS, FIRST_FREE, INODE_REF};
use blk_base::{Ino, Key};
use block_table::{BlockTable, SubState, Tree};
use item_edit::{write_inode, write_item};
use item_inode::{InodeItem, put_ref};

/// The item of a root directory without names.
fn root_item(running: u64) -> InodeItem
    ensures { inode_view result ≡ bare_inode running }
{
    InodeItem {
        generation: running,
        transid: running,
        size: 0,
        nbytes: 0,
        nlink: 1,
        mode: DIR_MODE,
    }
}

/// Writes the root directory's name for itself ("INODE_REF").
fn write_own_ref(table: &mut BlockTable, tree: &mut Tree)
    requires tree { IsTree table.old tree.old }
    requires current { AreCurrent table.old (tree_reach table.old tree.old) }
    requires room { HasRoom table.old 17 }
    ensures { IsItemEdit table.old table.new tree.old tree.new (make_key 256 inode_ref 256) (Some (ref_bytes bare_ref)) }
{
    let mut bytes = [0; 12];
    put_ref(0, DOTS, &mut bytes);
    let key = Key {
        objectid: FIRST_FREE,
        kind: INODE_REF,
        offset: FIRST_FREE,
    };
    write_item(table, tree, key, &bytes);
}

/// A new subvolume with this number, which has nothing but its root directory, made in a transaction ("INODE_ITEM" and
/// "INODE_REF" of the on-disk format). Its tree isn't committed yet. It takes 35 blocks and buffers at most.
pub fn bare_state(table: &mut BlockTable, id: u64, running: u64) -> SubState
    requires { HasRoom table.old 35 }
    ensures gives { GivesRun table.new result bare_run }
    ensures id { id_of result ≡ id }
    ensures running { result.running ≡ running }
    ensures items { tree_items table.new result.tree ≡ bare_items running }
    ensures edit { IsEdit table.old table.new [] (sub_reach table.new result.tree) }
    ensures taken { TakesAtMost table.old table.new 35 }
{
    let mut tree = empty_tree(table, id);
    write_inode(table, &mut tree, Ino(FIRST_FREE), &root_item(running));
    write_own_ref(table, &mut tree);
    SubState {
        tree,
        next_ino: FIRST_FREE + 1,
        next_index: 2,
        running,
    }
}
