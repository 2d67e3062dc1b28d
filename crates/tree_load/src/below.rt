//! A block of a tree, and all below it.
ghost use Rattle.std.specs.Prelude.{◌≡◌, ◌≤◌, ℕ, length, IfOk, IfErr, Err};
ghost use Rattle.disk_model.specs.Disk.{IfTold, known};
ghost use Rattle.blk_base.specs.Causes.{HasRisen};
ghost use Rattle.tree_load.specs.Below.{IsFaultBelow, IsLoadedBelow};

use crate::blocks::{read_block, stand};
use crate::steps::{check_leaf, check_node, child_want, enter};
use blk_base::{Block, Key, Want};
use block_table::BlockTable;
use disk_model::Disk;
use leaf_view::NodeView;
use std::alloc::Global;
use volume_image::LoadFault;

/// Loads a block of a tree and all below it, from left to right, and answers the last key met then. `under` is the key of
/// the pointer to the block, which a root has not, and `last` the last key met before.
pub(crate) fn load_below<D: Disk>(
    alloc: Global,
    disk: &mut D,
    table: &mut BlockTable,
    want: &Want,
    under: Option<Key>,
    last: Option<Key>,
) -> Result<Option<Key>, LoadFault>
    requires { length table.old.slots ≤ D.count disk.old }
    ensures ok { IfOk result (IsLoadedBelow (known (D.seen disk.old) (D.lost disk.old)) table.old table.new want.now under last) }
    ensures fault { IfErr result (λ fault. IfTold (known (D.seen disk.old) (D.lost disk.old)) (λ image. IsFaultBelow image table.old want.now under last fault)) }
    ensures disk_fault { (result ≡ Err LoadFault.Disk) → HasRisen (D.faults disk.old) (D.faults disk.new) }
    ensures size { D.count disk.new ≡ D.count disk.old }
    ensures seen { D.seen disk.new ≡ D.seen disk.old }
    ensures lost { D.lost disk.new ≡ D.lost disk.old }
    ensures told { D.told disk.new ≡ D.told disk.old }
    ensures counted { D.faults disk.old ≤ D.faults disk.new }
{
    enter(table, want)?;
    let mut block = [0; 4096];
    if read_block(disk, want.at, &mut block).is_err() {
        return Err(LoadFault::Disk);
    }
    if want.level == 0 {
        let after = check_leaf(&block, want, under, last)?;
        return match stand(alloc, table, want.at, &block, false) {
            Ok(()) => Ok(after),
            Err(_) => Err(LoadFault::OutOfMemory),
        };
    }
    let node = match NodeView::open(&block, want) {
        Ok(node) => node,
        Err(fault) => return Err(LoadFault::Block(want.at, fault)),
    };
    check_node(&node, want, under, last)?;
    if stand(alloc, table, want.at, &block, false).is_err() {
        return Err(LoadFault::OutOfMemory);
    }
    let mut met = last;
    for place in 0..node.len() {
        let child = child_want(want, &node, place);
        met = load_below(alloc, disk, table, &child, Some(node.key(place)), met)?;
    }
    Ok(met)
}
