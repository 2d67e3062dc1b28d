//! The subvolumes of a volume, by the root items in its root tree.
ghost use Rattle.std.specs.Prelude.{◌≡◌, ◌≤◌, ◌<◌, ℕ, All, IfErr, IfOk, OnOk, Err, length};
ghost use Rattle.std.proofs.Common.{get_or, insert};
ghost use Rattle.std.proofs.Math.ListN.{set};
ghost use Rattle.blk_base.specs.Causes.{HasRisen};
ghost use Rattle.disk_model.specs.Disk.{IfTold, known};
ghost use Rattle.foreign_format.specs.declared.fault.ReadFault.{ReadFault};
ghost use Rattle.foreign_format.specs.Answer.{Answers};
ghost use Rattle.foreign_format.specs.Chunks.{IsOnDisk};
ghost use Rattle.foreign_tree.specs.Tree.{disk_bytes, volume_value};
ghost use Rattle.foreign_volume.specs.Opened.{size_of};
ghost use Rattle.foreign_volume.specs.Roots.{is_sub_id, put_sub, subvolumes_of};

use blk_base::{Key, OutOfMemory};
use disk_model::Disk;
use foreign_format::{ForeignFault, ReadFault, Root, Superblock, read_root};
use foreign_tree::{Visit, Volume, Wanted, walk};
use std::alloc::Global;

/// The key type of a root item.
const ROOT_ITEM: u8 = 132;

/// A subvolume by its number, and the root of its tree.
#[derive(Clone, Copy, Debug, PartialEq, Eq)]
pub struct Subvolume {
    pub id: u64,
    pub root: Root,
}

/// Whether a subvolume has this number: 5, or 256 to 2^64 - 256.
fn is_sub_id(id: u64) -> bool
    ensures { result ≡ is_sub_id id }
{
    id == 5 || (id >= 256 && id <= 0xffff_ffff_ffff_ff00)
}

/// The place of the subvolume of this number, else the place where one belongs.
fn place_of(subs: &[Subvolume], id: u64) -> Result<usize, usize>
    ensures found { IfOk result (λ place. place < length subs.now) }
    ensures over { IfOk result (λ place. (sub : Subvolume) (d : Subvolume) → sub.id ≡ id → (get_or subs.now place d).root.offset ≤ sub.root.offset → put_sub sub subs.now ≡ set subs.now place sub) }
    ensures under { IfOk result (λ place. (sub : Subvolume) (d : Subvolume) → sub.id ≡ id → sub.root.offset < (get_or subs.now place d).root.offset → put_sub sub subs.now ≡ subs.now) }
    ensures room { IfErr result (λ place. place ≤ length subs.now) }
    ensures new { IfErr result (λ place. (sub : Subvolume) → sub.id ≡ id → put_sub sub subs.now ≡ insert subs.now place sub) }
{
    for (place, sub) in subs.iter().enumerate() {
        if sub.id == id {
            return Ok(place);
        }
        if id < sub.id {
            return Err(place);
        }
    }
    Err(subs.len())
}

/// Puts a subvolume among others in ascending order; of two of one number the one with the greater key counts.
fn put_sub(subs: &mut Vec<Subvolume>, sub: Subvolume) -> Result<(), OutOfMemory>
    ensures { OnOk result (subs.new.items ≡ put_sub sub subs.old.items) }
{
    match place_of(subs, sub.id) {
        Err(place) => subs.insert(place, sub)?,
        Ok(place) => {
            if subs[place].root.offset <= sub.root.offset {
                subs[place] = sub;
            }
        }
    }
    Ok(())
}

/// The subvolumes of the root items that were shown, or the fault of the first that has one.
#[derive(Drop)]
struct Roots {
    subs: Vec<Subvolume>,
    fault: Option<ForeignFault>,
}

impl Visit for Roots {
    ghost use Rattle.foreign_volume.specs.Roots.{found_so_far, subs_of};

    ghost has_met = { λ self items. subs_of items ≡ found_so_far self.fault self.subs.items };

    fn meet(&mut self, leaf: u64, _place: u64, key: &Key, data: &[u8]) -> Result<(), OutOfMemory> {
        if self.fault.is_some() || key.kind != ROOT_ITEM || !is_sub_id(key.objectid) {
            return Ok(());
        }
        match read_root(key.offset, data) {
            Ok(root) => {
                if root.refs != 0 {
                    let id = key.objectid;
                    put_sub(&mut self.subs, Subvolume { id, root })?;
                }
            }
            Err(fault) => self.fault = Some(ForeignFault::Item(leaf, *key, fault)),
        }
        Ok(())
    }
}

/// The subvolumes of a volume in ascending order of their numbers ("ROOT_ITEM" of the on-disk format), or the first fault:
/// of the root tree, and then of a root item in it. A tree to which nothing refers is no subvolume. `Disk` comes only where
/// the disk's count of faults rose in this call.
pub fn subvolumes<D: Disk>(
    alloc: Global,
    disk: &mut D,
    volume: &Volume,
    superblock: &Superblock,
) -> Result<Vec<Subvolume>, ReadFault>
    requires on_disk { All (IsOnDisk (size_of (D.count disk.old))) volume.now.chunks.items }
    requires least { 4096 ≤ volume.now.node_size }
    requires most { volume.now.node_size ≤ 65536 }
    ensures answer { IfTold (known (D.seen disk.old) (D.lost disk.old)) (λ image. Answers (λ subs. subs.items) result (subvolumes_of (disk_bytes image) (volume_value volume.now) superblock.now)) }
    ensures disk_fault { (result ≡ Err ReadFault.Disk) → HasRisen (D.faults disk.old) (D.faults disk.new) }
    ensures size { D.count disk.new ≡ D.count disk.old }
    ensures seen { D.seen disk.new ≡ D.seen disk.old }
    ensures lost { D.lost disk.new ≡ D.lost disk.old }
    ensures told { D.told disk.new ≡ D.told disk.old }
    ensures counted { D.faults disk.old ≤ D.faults disk.new }
{
    let root = Wanted {
        at: superblock.root,
        generation: Some(superblock.generation),
        level: superblock.root_level,
    };
    let mut roots = Roots {
        subs: Vec::new(alloc),
        fault: None,
    };
    walk(alloc, disk, volume, &root, &mut roots)?;
    let Roots { subs, fault } = roots;
    match fault {
        Some(fault) => Err(ReadFault::Foreign(fault)),
        None => Ok(subs),
    }
}
