//! The items of a subvolume's tree, as rows.
ghost use Rattle.std.specs.Prelude.{◌≡◌, ◌≤◌, ◌<◌, ◌+◌, ◌^◌, ◌++◌, ◌∷◌, [], All, IfOk, OnOk, Err, length, map};
ghost use Rattle.blk_base.specs.Causes.{HasRisen};
ghost use Rattle.disk_model.specs.Disk.{IfTold, known};
ghost use Rattle.foreign_format.specs.declared.fault.ReadFault.{ReadFault};
ghost use Rattle.foreign_format.specs.Answer.{Answers};
ghost use Rattle.foreign_format.specs.Chunks.{IsOnDisk};
ghost use Rattle.foreign_format.specs.Items.{entry_of, extent_of, inode_of};
ghost use Rattle.foreign_tree.specs.Tree.{disk_bytes, volume_value};
ghost use Rattle.foreign_volume.specs.Opened.{size_of};
ghost use Rattle.foreign_items.specs.Rows.{items_of};
ghost use Rattle.foreign_items.specs.View.{items_value, name_value, name_view};

use crate::{ExtentRow, InodeRow, Name, NameRow};
use blk_base::{ItemFault, Key, OutOfMemory};
use disk_model::Disk;
use foreign_format::{ReadFault, read_entry, read_extent, read_inode};
use foreign_tree::{Visit, Volume, Wanted, walk};
use foreign_volume::Subvolume;
use std::alloc::Global;

/// The key types of the items that are read.
const INODE_ITEM: u8 = 1;

const DIR_INDEX: u8 = 96;

const EXTENT_DATA: u8 = 108;

/// The items of a subvolume's tree, each list in the order of the tree.
#[derive(Drop)]
pub struct SubvolumeItems {
    pub inodes: Vec<InodeRow>,
    pub names: Vec<NameRow>,
    pub extents: Vec<ExtentRow>,
}

/// The name in an entry's item with memory of its own, or the first check that the item fails.
fn read_name(alloc: Global, item: &[u8]) -> Result<Result<Name, ItemFault>, OutOfMemory>
    ensures { IfOk result (λ name. name_value name ≡ entry_of item.now) }
{
    match read_entry(item) {
        Ok(entry) => Ok(Ok(Name {
            to: entry.to,
            kind: entry.kind,
            bytes: entry.name.to_vec(alloc)?,
        })),
        Err(fault) => Ok(Err(fault)),
    }
}

impl SubvolumeItems {
    /// None so far.
    fn new(alloc: Global) -> SubvolumeItems
        ensures { items_value result ≡ record { inodes = []; names = []; extents = [] } }
    {
        SubvolumeItems {
            inodes: Vec::new(alloc),
            names: Vec::new(alloc),
            extents: Vec::new(alloc),
        }
    }

    fn add_inode(&mut self, leaf: u64, key: &Key, data: &[u8]) -> Result<(), OutOfMemory>
        ensures inodes { OnOk result (self.new.inodes.items ≡ self.old.inodes.items ++ record { leaf = leaf; key = key.now; inode = inode_of data.now } ∷ []) }
        ensures names { self.new.names.items ≡ self.old.names.items }
        ensures extents { self.new.extents.items ≡ self.old.extents.items }
    {
        let inode = read_inode(data);
        self.inodes.push(InodeRow {
            leaf,
            key: *key,
            inode,
        })?;
        Ok(())
    }

    fn add_name(&mut self, leaf: u64, key: &Key, data: &[u8]) -> Result<(), OutOfMemory>
        ensures inodes { self.new.inodes.items ≡ self.old.inodes.items }
        ensures names { OnOk result (map name_view self.new.names.items ≡ map name_view self.old.names.items ++ record { leaf = leaf; key = key.now; entry = entry_of data.now } ∷ []) }
        ensures extents { self.new.extents.items ≡ self.old.extents.items }
    {
        let alloc = *self.names.allocator();
        let name = read_name(alloc, data)?;
        self.names.push(NameRow {
            leaf,
            key: *key,
            name,
        })?;
        Ok(())
    }

    fn add_extent(
        &mut self,
        leaf: u64,
        place: u64,
        key: &Key,
        data: &[u8],
    ) -> Result<(), OutOfMemory>
        requires { place + length data.now < 2 ^ 64 }
        ensures inodes { self.new.inodes.items ≡ self.old.inodes.items }
        ensures names { self.new.names.items ≡ self.old.names.items }
        ensures extents { OnOk result (self.new.extents.items ≡ self.old.extents.items ++ record { leaf = leaf; key = key.now; extent = extent_of key.now.offset place data.now } ∷ []) }
    {
        let extent = read_extent(key.offset, place, data);
        self.extents.push(ExtentRow {
            leaf,
            key: *key,
            extent,
        })?;
        Ok(())
    }
}

impl Visit for SubvolumeItems {
    ghost use Rattle.foreign_items.specs.Rows.{rows_of};
    ghost use Rattle.foreign_items.specs.View.{items_value};

    ghost has_met = { λ self items. items_value self ≡ rows_of items };

    fn meet(&mut self, leaf: u64, place: u64, key: &Key, data: &[u8]) -> Result<(), OutOfMemory> {
        match key.kind {
            INODE_ITEM => self.add_inode(leaf, key, data),
            DIR_INDEX => self.add_name(leaf, key, data),
            EXTENT_DATA => self.add_extent(leaf, place, key, data),
            _ => Ok(()),
        }
    }
}

/// Reads the inode items, the entries of directories and the extent items of a subvolume's tree ("INODE_ITEM", "DIR_INDEX"
/// and "EXTENT_DATA" of the on-disk format), or answers the tree's first fault. `Disk` comes only where the disk's count of
/// faults rose in this call.
pub fn read_items<D: Disk>(
    alloc: Global,
    disk: &mut D,
    volume: &Volume,
    sub: &Subvolume,
) -> Result<SubvolumeItems, ReadFault>
    requires on_disk { All (IsOnDisk (size_of (D.count disk.old))) volume.now.chunks.items }
    requires least { 4096 ≤ volume.now.node_size }
    requires most { volume.now.node_size ≤ 65536 }
    ensures answer { IfTold (known (D.seen disk.old) (D.lost disk.old)) (λ image. Answers items_value result (items_of (disk_bytes image) (volume_value volume.now) sub.now)) }
    ensures disk_fault { (result ≡ Err ReadFault.Disk) → HasRisen (D.faults disk.old) (D.faults disk.new) }
    ensures size { D.count disk.new ≡ D.count disk.old }
    ensures seen { D.seen disk.new ≡ D.seen disk.old }
    ensures lost { D.lost disk.new ≡ D.lost disk.old }
    ensures told { D.told disk.new ≡ D.told disk.old }
    ensures counted { D.faults disk.old ≤ D.faults disk.new }
{
    let root = Wanted {
        at: sub.root.at,
        generation: Some(sub.root.generation),
        level: sub.root.level,
    };
    let mut items = SubvolumeItems::new(alloc);
    walk(alloc, disk, volume, &root, &mut items)?;
    Ok(items)
}
