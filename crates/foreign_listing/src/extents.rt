//! The extents of an inode.
ghost use Rattle.std.specs.Prelude.{◌≡◌, ◌≢◌, ◌≤◌, ◌*◌, [], IfErr, Err, Ok};
ghost use Rattle.blk_base.specs.Bytes.{bytes_at};
ghost use Rattle.blk_base.specs.Causes.{HasRisen};
ghost use Rattle.disk_model.specs.Disk.{IfTold, known};
ghost use Rattle.foreign_format.specs.declared.fault.ReadFault.{ReadFault};
ghost use Rattle.foreign_format.specs.Answer.{Answers};
ghost use Rattle.foreign_tree.specs.Tree.{disk_bytes};
ghost use Rattle.foreign_listing.specs.Lines.{are_apart, extents_from, extents_of, target_in};
ghost use Rattle.foreign_listing.specs.Names.{at_row};
ghost use Rattle.foreign_listing.specs.View.{tree_value};

use crate::by_inode::of_inode;
use crate::inodes::incoherent;
use crate::tree::Tree;
use blk_base::format::BLOCK_SIZE;
use disk_model::Disk;
use foreign_format::{Coding, Extent, ForeignFault, ReadFault, Source};
use foreign_items::ExtentRow;
use foreign_tree::read_part;
use std::alloc::Global;

/// What a row's item says, or its fault under the item's leaf and key.
fn extent_at(row: &ExtentRow) -> Result<Extent, ForeignFault>
    ensures { result ≡ at_row row.now.leaf row.now.key row.now.extent }
{
    match row.extent {
        Ok(extent) => Ok(extent),
        Err(fault) => Err(ForeignFault::Item(row.leaf, row.key, fault)),
    }
}

#[tactic(auto, using(foreign_format::specs::Answer::answers_no_memory))]
/// The extents of an inode, in the order of the tree, or the first item's fault.
fn extents_from(alloc: Global, tree: &Tree, ino: u64) -> Result<Vec<Extent>, ReadFault>
    ensures answer { Answers (λ extents. extents.items) result (extents_from [] tree.now.extents.items ino) }
    ensures no_disk { IfErr result (λ fault. fault ≢ ReadFault.Disk) }
{
    let mut extents = Vec::new(alloc);
    for row in of_inode(&tree.extents, ino) {
        match extent_at(row) {
            Ok(extent) => extents.push(extent)?,
            Err(fault) => return Err(ReadFault::Foreign(fault)),
        }
    }
    Ok(extents)
}

/// Whether each extent begins at or behind the end of the one before it.
fn are_apart(extents: &[Extent]) -> bool
    ensures { result ≡ are_apart 0 extents.now }
{
    let mut end: u128 = 0;
    for extent in extents {
        if u128::from(extent.offset) < end {
            return false;
        }
        end = u128::from(extent.offset) + u128::from(extent.length());
    }
    true
}

/// The extents of an inode, none of which overlaps the one before it, or the first fault.
pub(crate) fn extents_of(alloc: Global, tree: &Tree, ino: u64) -> Result<Vec<Extent>, ReadFault>
    ensures answer { Answers (λ extents. extents.items) result (extents_of (tree_value tree.now) ino) }
    ensures no_disk { IfErr result (λ fault. fault ≢ ReadFault.Disk) }
{
    let extents = extents_from(alloc, tree, ino)?;
    if !are_apart(&extents) {
        return Err(ReadFault::Foreign(incoherent(tree.sub, ino)));
    }
    Ok(extents)
}

/// The bytes of an item from byte `at` of the disk on. No item of a disk passes its end.
fn read_inline<D: Disk>(
    alloc: Global,
    disk: &mut D,
    at: u64,
    length: u64,
) -> Result<Vec<u8>, ReadFault>
    ensures answer { IfTold (known (D.seen disk.old) (D.lost disk.old)) (λ image.
        Answers (λ bytes. bytes.items) result (Ok (bytes_at length (disk_bytes image) at))) }
    ensures disk_fault { (result ≡ Err ReadFault.Disk) → HasRisen (D.faults disk.old) (D.faults disk.new) }
    ensures size { D.count disk.new ≡ D.count disk.old }
    ensures seen { D.seen disk.new ≡ D.seen disk.old }
    ensures lost { D.lost disk.new ≡ D.lost disk.old }
    ensures told { D.told disk.new ≡ D.told disk.old }
    ensures counted { D.faults disk.old ≤ D.faults disk.new }
{
    let disk_size = u64::from(disk.blocks()) * BLOCK_SIZE;
    let there = length.min(disk_size.saturating_sub(at));
    read_part(alloc, disk, at.min(disk_size), there as usize)
}

/// The target of a symlink of this size, which is the one plain inline extent that it has. Some makers put a zero behind it.
pub(crate) fn target_of<D: Disk>(
    alloc: Global,
    disk: &mut D,
    sub: u64,
    ino: u64,
    size: u64,
    extents: &[Extent],
) -> Result<Vec<u8>, ReadFault>
    ensures answer { IfTold (known (D.seen disk.old) (D.lost disk.old)) (λ image.
        Answers (λ bytes. bytes.items) result (target_in (disk_bytes image) sub ino size extents.now)) }
    ensures disk_fault { (result ≡ Err ReadFault.Disk) → HasRisen (D.faults disk.old) (D.faults disk.new) }
    ensures size { D.count disk.new ≡ D.count disk.old }
    ensures seen { D.seen disk.new ≡ D.seen disk.old }
    ensures lost { D.lost disk.new ≡ D.lost disk.old }
    ensures told { D.told disk.new ≡ D.told disk.old }
    ensures counted { D.faults disk.old ≤ D.faults disk.new }
{
    match extents {
        [
            Extent {
                coding: Coding::Plain,
                source: Source::Inline { at, length },
                ..
            },
        ] => read_inline(alloc, disk, *at, (*length).min(size)),
        _ => Err(ReadFault::Foreign(incoherent(sub, ino))),
    }
}
