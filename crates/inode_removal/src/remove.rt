//! One inode taken out of a subvolume.
ghost use Rattle.std.specs.Prelude.{◌≡◌};
ghost use Rattle.std.specs.FinMap.{remove};
ghost use Rattle.flat_model.specs.Volume.{Subvolume};
ghost use Rattle.tree_frame.specs.Frame.{AreCurrent};
ghost use Rattle.table_volume.specs.Edited.{Makes};
ghost use Rattle.table_volume.specs.Gives.{GivesSubvolume, sub_reach};
ghost use Rattle.table_volume.specs.Operated.{HasRoom};
ghost use Rattle.inode_removal.specs.Removal.{MayRemoveInode, most_taken};

use blk_base::{Ino, Key};
use block_table::{BlockTable, SubState};
use cow_tree::delete_range;
use data_release::let_go_between;

/// Takes an inode that has no name any more out of a subvolume, and lets its data blocks go: its inode item, its attributes, and
/// its extents ("btrfs_evict_inode" of fs/btrfs/inode.c; "INODE_ITEM", "XATTR_ITEM" and "EXTENT_DATA" of the on-disk format). It
/// takes 36 blocks and buffers at most, and 2 for each of its data blocks, inline extents and attribute items.
pub fn remove_inode(table: &mut BlockTable, sub: &mut SubState, ino: Ino)
    requires may { (s : Subvolume) × GivesSubvolume table.old sub.old.tree s × MayRemoveInode s ino.0 × HasRoom table.old (most_taken s ino.0) }
    requires current { AreCurrent table.old (sub_reach table.old sub.old.tree) }
    ensures made { (s : Subvolume) → GivesSubvolume table.old sub.old.tree s → MayRemoveInode s ino.0
        → Makes table.old table.new sub.old sub.new (most_taken s ino.0) (record s { inodes = remove s.inodes ino.0 }) }
    ensures next_ino { sub.new.next_ino ≡ sub.old.next_ino }
    ensures next_index { sub.new.next_index ≡ sub.old.next_index }
{
    let first = Key {
        objectid: ino.0,
        kind: 0,
        offset: 0,
    };
    let last = Key {
        objectid: ino.0,
        kind: u8::MAX,
        offset: u64::MAX,
    };
    let_go_between(table, &sub.tree, &first, &last);
    delete_range(table, &mut sub.tree, &first, &last);
}
