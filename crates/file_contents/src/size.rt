//! The size of a file in its inode item.
ghost use Rattle.std.specs.Prelude.{◌≡◌, ◌<◌, ◌^◌, Some};
ghost use Rattle.blk_base.specs.Items.{IsInode, file_mode, inode_bytes};
ghost use Rattle.blk_base.specs.Keys.{inode_item};
ghost use Rattle.item_edit.specs.ItemEdit.{IsItemEdit};
ghost use Rattle.item_inode.specs.Inode.{inode_view};
ghost use Rattle.table_volume.specs.Operated.{HasRoom};
ghost use Rattle.tree_frame.specs.Frame.{AreCurrent};
ghost use Rattle.tree_range.specs.Shape.{IsTree, tree_reach};
ghost use Rattle.volume_image.specs.Subvolume.{make_key};
ghost use Rattle.file_contents.specs.Given.{resized};

use blk_base::Ino;
use block_table::{BlockTable, Tree};
use item_edit::write_inode;
use item_inode::InodeItem;

/// Writes the inode item of a file once more, with another size and another count of its data blocks' bytes, as the running
/// transaction does ("INODE_ITEM" of the on-disk format).
pub(crate) fn write_size(
    table: &mut BlockTable,
    tree: &mut Tree,
    ino: Ino,
    running: u64,
    item: &InodeItem,
    size: u64,
    nbytes: u64,
)
    requires tree { IsTree table.old tree.old }
    requires current { AreCurrent table.old (tree_reach table.old tree.old) }
    requires mode { item.now.mode ≡ file_mode }
    requires room { HasRoom table.old 17 }
    ensures edit { IsItemEdit table.old table.new tree.old tree.new (make_key ino.0 inode_item 0) (Some (inode_bytes (resized (inode_view item.now) running size nbytes))) }
    ensures spelled { IsInode (inode_bytes (resized (inode_view item.now) running size nbytes)) (resized (inode_view item.now) running size nbytes) }
{
    let item = InodeItem {
        transid: running,
        size,
        nbytes,
        ..*item
    };
    write_inode(table, tree, ino, &item);
}
