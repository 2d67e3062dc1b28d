//! A tree from its root down.
ghost use Rattle.std.specs.Prelude.{◌≡◌, ◌≤◌, ◌*◌, All, IfErr, OnOk, Err};
ghost use Rattle.blk_base.specs.Causes.{HasRisen};
ghost use Rattle.disk_model.specs.Disk.{IfTold, known};
ghost use Rattle.foreign_format.specs.declared.fault.ReadFault.{ReadFault};
ghost use Rattle.foreign_format.specs.Chunks.{IsOnDisk};
ghost use Rattle.foreign_tree.specs.Answers.{IsFaultBelow, IsWalk, IsWalkedBelow};
ghost use Rattle.foreign_tree.specs.Tree.{disk_bytes, tree_of, volume_value};

use crate::node::read_node;
use crate::{Reached, Visit, Volume, Wanted};
use blk_base::format::MAX_LEVEL;
use disk_model::Disk;
use foreign_format::{ForeignFault, ReadFault, count_of};
use std::alloc::Global;

/// Walks a block of a tree and all below it.
fn walk_below<D: Disk, V: Visit>(
    alloc: Global,
    disk: &mut D,
    volume: &Volume,
    wanted: &Wanted,
    reached: &mut Reached,
    visitor: &mut V,
) -> Result<(), ReadFault>
    requires on_disk { All (IsOnDisk (4096 * D.count disk.old)) volume.now.chunks.items }
    requires least { 4096 ≤ volume.now.node_size }
    requires most { volume.now.node_size ≤ 65536 }
    ensures ok { OnOk result (IfTold (known (D.seen disk.old) (D.lost disk.old)) (λ image. IsWalkedBelow V.has_met (volume_value volume.now) (disk_bytes image) wanted.now reached.old reached.new visitor.old visitor.new)) }
    ensures fault { IfErr result (λ fault. IfTold (known (D.seen disk.old) (D.lost disk.old)) (λ image. IsFaultBelow (volume_value volume.now) (disk_bytes image) wanted.now reached.old fault)) }
    ensures disk_fault { (result ≡ Err ReadFault.Disk) → HasRisen (D.faults disk.old) (D.faults disk.new) }
    ensures size { D.count disk.new ≡ D.count disk.old }
    ensures seen { D.seen disk.new ≡ D.seen disk.old }
    ensures lost { D.lost disk.new ≡ D.lost disk.old }
    ensures told { D.told disk.new ≡ D.told disk.old }
    ensures counted { D.faults disk.old ≤ D.faults disk.new }
{
    let node = read_node(alloc, disk, volume, wanted, reached)?;
    if wanted.level == 0 {
        node.show(wanted.at, visitor)?;
        return Ok(());
    }
    for i in 0..count_of(&node.bytes) {
        let child = node.child(wanted.level, i);
        walk_below(alloc, disk, volume, &child, reached, visitor)?;
    }
    Ok(())
}

/// Walks the tree with this root from left to right, a parent before its children, and shows a visitor each item ("Header",
/// "Internal Node" and "Leaf Node" of the on-disk format). A tree has at most 8 levels; one block for each is held at a time.
///
/// `Ok`: the visitor was shown exactly the tree's items, in order, and each block was read and summed once. `Err`: the
/// first fault of that walk: a root above level 7; then for each block in its turn that it isn't wholly in one chunk, that
/// it was reached before, and a check of its own. `Disk` comes only where the disk's count of faults rose in this call.
pub fn walk<D: Disk, V: Visit>(
    alloc: Global,
    disk: &mut D,
    volume: &Volume,
    root: &Wanted,
    visitor: &mut V,
) -> Result<(), ReadFault>
    requires on_disk { All (IsOnDisk (4096 * D.count disk.old)) volume.now.chunks.items }
    requires least { 4096 ≤ volume.now.node_size }
    requires most { volume.now.node_size ≤ 65536 }
    ensures answer { IfTold (known (D.seen disk.old) (D.lost disk.old)) (λ image. IsWalk V.has_met visitor.old visitor.new result (tree_of (volume_value volume.now) (disk_bytes image) root.now)) }
    ensures disk_fault { (result ≡ Err ReadFault.Disk) → HasRisen (D.faults disk.old) (D.faults disk.new) }
    ensures size { D.count disk.new ≡ D.count disk.old }
    ensures seen { D.seen disk.new ≡ D.seen disk.old }
    ensures lost { D.lost disk.new ≡ D.lost disk.old }
    ensures told { D.told disk.new ≡ D.told disk.old }
    ensures counted { D.faults disk.old ≤ D.faults disk.new }
{
    if root.level > MAX_LEVEL {
        return Err(ReadFault::Foreign(ForeignFault::Level(root.at)));
    }
    let mut reached = Reached::new(alloc);
    walk_below(alloc, disk, volume, root, &mut reached, visitor)
}
