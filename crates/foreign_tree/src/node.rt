//! A tree block, found by its logical address, read and checked.
ghost use Rattle.std.specs.Prelude.{◌≡◌, ◌≢◌, ◌≤◌, ◌<◌, ◌+◌, ◌*◌, ◌^◌, ◌++◌, ◌∷◌, [], ℕ, List, length, map, All, IfOk, IfErr, OnOk, Ok, Err};
ghost use Rattle.blk_base.specs.Causes.{HasRisen};
ghost use Rattle.blk_base.specs.Leaf.{count_of, pointer_of};
ghost use Rattle.disk_model.specs.Disk.{IfTold, known};
ghost use Rattle.foreign_format.specs.declared.fault.ReadFault.{ReadFault};
ghost use Rattle.foreign_format.specs.Answer.{Answers};
ghost use Rattle.foreign_format.specs.Block.{check_block, leaf_body, node_body};
ghost use Rattle.foreign_format.specs.Chunks.{IsOnDisk};
ghost use Rattle.foreign_tree.specs.Answers.{HasMetMore, IsNotOpened, child_wanted};
ghost use Rattle.foreign_tree.specs.Reached.{HasReached};
ghost use Rattle.foreign_tree.specs.Tree.{disk_bytes, entered, items_of, node_at, opened, volume_value};

use crate::disk::read_part;
use crate::reached::Reached;
use crate::{Visit, Volume, Wanted};
use blk_base::OutOfMemory;
use blk_base::format::BLOCK_SIZE;
use disk_model::Disk;
use foreign_format::{
    ForeignFault, ReadFault, check_block, count_of, item_at, physical_of, pointer_at,
};
use std::alloc::Global;

/// A tree block: where it begins on the disk, and its bytes.
#[derive(Drop)]
pub(crate) struct Node {
    pub place: u64,
    pub bytes: Vec<u8>,
}

/// Where the block at a logical address begins on the disk: it is wholly in one chunk, and wasn't reached before.
fn enter(volume: &Volume, at: u64, disk_size: u64, reached: &mut Reached) -> Result<u64, ReadFault>
    requires { All (IsOnDisk disk_size) volume.now.chunks.items }
    ensures answer { (before : List ℕ) → HasReached reached.old before → Answers (λ place. place) result (entered (volume_value volume.now) at before) }
    ensures reached { OnOk result ((before : List ℕ) → HasReached reached.old before → HasReached reached.new (before ++ at ∷ [])) }
    ensures on_disk { IfOk result (λ place. place + volume.now.node_size ≤ disk_size) }
    ensures no_disk { IfErr result (λ fault. fault ≢ ReadFault.Disk) }
{
    let size = volume.node_size as u64;
    let Some(place) = physical_of(&volume.chunks, u128::from(at), size, disk_size) else {
        return Err(ReadFault::Foreign(ForeignFault::Unmapped(at)));
    };
    if !reached.add(at)? {
        return Err(ReadFault::Foreign(ForeignFault::Twice(at)));
    }
    Ok(place)
}

/// Reads a tree block, and checks it.
pub(crate) fn read_node<D: Disk>(
    alloc: Global,
    disk: &mut D,
    volume: &Volume,
    wanted: &Wanted,
    reached: &mut Reached,
) -> Result<Node, ReadFault>
    requires on_disk { All (IsOnDisk (4096 * D.count disk.old)) volume.now.chunks.items }
    requires least { 4096 ≤ volume.now.node_size }
    requires most { volume.now.node_size ≤ 65536 }
    ensures opened { IfOk result (λ node. IfTold (known (D.seen disk.old) (D.lost disk.old)) (λ image.
        (before : List ℕ) → HasReached reached.old before → opened (volume_value volume.now) (disk_bytes image) wanted.now.level wanted.now.at wanted.now.generation before ≡ Ok node.place)) }
    ensures bytes { IfOk result (λ node. IfTold (known (D.seen disk.old) (D.lost disk.old)) (λ image. node.bytes.items ≡ node_at (volume_value volume.now) (disk_bytes image) node.place)) }
    ensures length { IfOk result (λ node. length node.bytes.items ≡ volume.now.node_size) }
    ensures checked { IfOk result (λ node. check_block volume.now.fsid wanted.now.at wanted.now.generation wanted.now.level node.bytes.items ≡ Ok tt) }
    ensures place { IfOk result (λ node. node.place + 65536 < 2 ^ 64) }
    ensures reached { OnOk result ((before : List ℕ) → HasReached reached.old before → HasReached reached.new (before ++ wanted.now.at ∷ [])) }
    ensures fault { IfErr result (λ fault. IfTold (known (D.seen disk.old) (D.lost disk.old)) (λ image. IsNotOpened (volume_value volume.now) (disk_bytes image) wanted.now reached.old fault)) }
    ensures disk_fault { (result ≡ Err ReadFault.Disk) → HasRisen (D.faults disk.old) (D.faults disk.new) }
    ensures size { D.count disk.new ≡ D.count disk.old }
    ensures seen { D.seen disk.new ≡ D.seen disk.old }
    ensures lost { D.lost disk.new ≡ D.lost disk.old }
    ensures told { D.told disk.new ≡ D.told disk.old }
    ensures counted { D.faults disk.old ≤ D.faults disk.new }
{
    let disk_size = u64::from(disk.blocks()) * BLOCK_SIZE;
    let place = enter(volume, wanted.at, disk_size, reached)?;
    let bytes = read_part(alloc, disk, place, volume.node_size)?;
    match check_block(
        &bytes,
        &volume.fsid,
        wanted.at,
        wanted.generation,
        wanted.level,
    ) {
        Ok(()) => Ok(Node { place, bytes }),
        Err(fault) => Err(ReadFault::Foreign(ForeignFault::Block(wanted.at, fault))),
    }
}

impl Node {
    /// Shows a visitor the items of a leaf, in order.
    pub(crate) fn show<V: Visit>(&self, leaf: u64, visitor: &mut V) -> Result<(), OutOfMemory>
        requires checked { leaf_body self.now.bytes.items ≡ Ok tt }
        requires least { 4096 ≤ length self.now.bytes.items }
        requires most { length self.now.bytes.items ≤ 65536 }
        requires place { self.now.place + 65536 < 2 ^ 64 }
        ensures { OnOk result (HasMetMore V.has_met visitor.old visitor.new (items_of leaf self.now.place self.now.bytes.items)) }
    {
        for i in 0..count_of(&self.bytes) {
            let (key, start, end) = item_at(&self.bytes, i);
            visitor.meet(
                leaf,
                self.place + start as u64,
                &key,
                &self.bytes[start..end],
            )?;
        }
        Ok(())
    }

    /// The child with this number of a node on a level.
    pub(crate) fn child(&self, level: u8, i: usize) -> Wanted
        requires checked { node_body self.now.bytes.items ≡ Ok tt }
        requires size { 4096 ≤ length self.now.bytes.items }
        requires there { i < count_of self.now.bytes.items }
        requires above { 0 < level }
        ensures { result ≡ child_wanted level (pointer_of self.now.bytes.items i) }
    {
        let (at, generation) = pointer_at(&self.bytes, i);
        Wanted {
            at,
            generation: Some(generation),
            level: level - 1,
        }
    }
}
