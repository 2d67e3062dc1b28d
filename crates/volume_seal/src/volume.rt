//! All trees of a volume.
ghost use Rattle.std.specs.Prelude.{◌≡◌, ◌≤◌, [], All, length};
ghost use Rattle.tree_frame.specs.Frame.{TakesAtMost};
ghost use Rattle.tree_range.specs.Shape.{tree_reach};
ghost use Rattle.flat_model.specs.Volume.{RunVolume};
ghost use Rattle.table_volume.specs.Operated.{HasRoom};
ghost use Rattle.table_volume.specs.Running.{GiveVolume};
ghost use Rattle.volume_seal.specs.Sealed.{IsReady, IsVolumeSealed};

use crate::roots::roots_of;
use crate::state::seal_with_data;
use blk_base::format::ROOT_TREE;
use block_table::{BlockTable, Blocks, SubState, Tree};
use root_tree::root_tree;
use tree_seal::seal_tree;

/// Seals the trees of all subvolumes of a volume, 16 at most: each Dirty block of them, and of their files' data, is Sealed
/// and put at the end of an empty list, tree blocks with this uuid and generation in their headers, and then come the blocks
/// of a new root tree with a root item for each subvolume, which is answered. It takes the root tree's blocks, three at most. The
/// root tree before it is the caller's to let go ("commit_cowonly_roots" of fs/btrfs/transaction.c).
pub fn seal_volume(
    table: &mut BlockTable,
    states: &[SubState],
    fsid: &[u8; 16],
    generation: u64,
    out: &mut Blocks,
) -> Tree
    requires volume { (run : RunVolume) × GiveVolume table.old states.now run }
    requires few { length states.now ≤ 16 }
    requires ready { All (λ state. IsReady table.old state.tree fsid.now) states.now }
    requires room { HasRoom table.old 3 }
    requires list { out.old ≡ record { pairs = []; room = length table.old.slots } }
    ensures sealed { IsVolumeSealed table.old table.new states.now result fsid.now generation out.new.pairs }
    ensures room { out.new.room ≡ out.old.room }
    ensures taken { TakesAtMost table.old table.new (length (tree_reach table.new result)) }
{
    for state in states {
        seal_with_data(table, &state.tree, fsid, generation, out);
    }
    let roots = roots_of(table, states);
    let root = root_tree(table, ROOT_TREE, &roots[..states.len()]);
    seal_tree(table, &root, fsid, generation, out);
    root
}
