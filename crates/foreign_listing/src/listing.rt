//! The listing of all subvolumes of a volume.
ghost use Rattle.std.specs.Prelude.{◌≡◌, ◌≤◌, ◌<◌, ◌+◌, ◌*◌, ◌^◌, All, IfErr, IfOk, OnOk, Err};
ghost use Rattle.blk_base.specs.Causes.{HasRisen};
ghost use Rattle.disk_model.specs.Disk.{IfTold, known};
ghost use Rattle.foreign_format.specs.declared.fault.ReadFault.{ReadFault};
ghost use Rattle.foreign_format.specs.Answer.{Answers};
ghost use Rattle.foreign_format.specs.Chunks.{IsOnDisk};
ghost use Rattle.foreign_tree.specs.Tree.{disk_bytes, volume_value};
ghost use Rattle.foreign_volume.specs.Opened.{size_of};
ghost use Rattle.foreign_listing.specs.Listing.{listing_of, nothing_listed, sub_listed, subs_listed, with_done, with_head};
ghost use Rattle.foreign_listing.specs.View.{listed_view};

use crate::tree::Tree;
use crate::walk::{Listed, list_tree};
use blk_base::OutOfMemory;
use disk_model::Disk;
use foreign_format::ReadFault;
use foreign_items::read_items;
use foreign_tree::Volume;
use foreign_volume::{Subvolume, open, subvolumes};
use io_edge::push_number;
use std::alloc::Global;

/// Adds the line of a subvolume's number.
fn with_head(alloc: Global, id: u64, listed: Listed) -> Result<Listed, OutOfMemory>
    ensures view { IfOk result (λ after. listed_view after ≡ with_head id (listed_view listed)) }
    ensures lines { IfOk result (λ after. after.lines ≡ listed.lines) }
{
    let mut text = listed.text;
    text.extend_from_slice(b"sub ")?;
    push_number(alloc, &mut text, u128::from(id))?;
    text.push(b'\n')?;
    Ok(Listed {
        text,
        lines: listed.lines,
    })
}

/// Lists a subvolume behind what is listed so far, or answers the first fault.
fn list_sub<D: Disk>(
    alloc: Global,
    disk: &mut D,
    volume: &Volume,
    sub: &Subvolume,
    listed: Listed,
) -> Result<Listed, ReadFault>
    requires on_disk { All (IsOnDisk (size_of (D.count disk.old))) volume.now.chunks.items }
    requires least { 4096 ≤ volume.now.node_size }
    requires most { volume.now.node_size ≤ 65536 }
    requires room { listed.lines + 2 ^ 64 < 2 ^ 128 }
    ensures answer { IfTold (known (D.seen disk.old) (D.lost disk.old)) (λ image.
        Answers listed_view result (sub_listed (volume_value volume.now) (disk_bytes image) sub.now (listed_view listed))) }
    ensures lines { IfOk result (λ after. after.lines ≤ listed.lines + 2 ^ 64) }
    ensures disk_fault { (result ≡ Err ReadFault.Disk) → HasRisen (D.faults disk.old) (D.faults disk.new) }
    ensures size { D.count disk.new ≡ D.count disk.old }
    ensures seen { D.seen disk.new ≡ D.seen disk.old }
    ensures lost { D.lost disk.new ≡ D.lost disk.old }
    ensures told { D.told disk.new ≡ D.told disk.old }
    ensures counted { D.faults disk.old ≤ D.faults disk.new }
{
    let items = read_items(alloc, disk, volume, sub)?;
    let tree = Tree::new(sub.id, items)?;
    let headed = with_head(alloc, sub.id, listed)?;
    list_tree(alloc, disk, volume, &tree, headed)
}

/// Lists subvolumes, or answers the first fault.
fn list_subs<D: Disk>(
    alloc: Global,
    disk: &mut D,
    volume: &Volume,
    subs: &[Subvolume],
) -> Result<Listed, ReadFault>
    requires on_disk { All (IsOnDisk (size_of (D.count disk.old))) volume.now.chunks.items }
    requires least { 4096 ≤ volume.now.node_size }
    requires most { volume.now.node_size ≤ 65536 }
    ensures answer { IfTold (known (D.seen disk.old) (D.lost disk.old)) (λ image.
        Answers listed_view result (subs_listed (volume_value volume.now) (disk_bytes image) subs.now nothing_listed)) }
    ensures disk_fault { (result ≡ Err ReadFault.Disk) → HasRisen (D.faults disk.old) (D.faults disk.new) }
    ensures size { D.count disk.new ≡ D.count disk.old }
    ensures seen { D.seen disk.new ≡ D.seen disk.old }
    ensures lost { D.lost disk.new ≡ D.lost disk.old }
    ensures told { D.told disk.new ≡ D.told disk.old }
    ensures counted { D.faults disk.old ≤ D.faults disk.new }
{
    let mut listed = Listed {
        text: Vec::new(alloc),
        lines: 0,
    };
    for sub in subs {
        listed = list_sub(alloc, disk, volume, sub, listed)?;
    }
    Ok(listed)
}

/// The text with the last line.
fn with_done(alloc: Global, listed: Listed) -> Result<Vec<u8>, OutOfMemory>
    ensures { IfOk result (λ text. text.items ≡ with_done (listed_view listed)) }
{
    let mut text = listed.text;
    text.extend_from_slice(b"done ")?;
    push_number(alloc, &mut text, listed.lines)?;
    text.push(b'\n')?;
    Ok(text)
}

/// The listing of the volume on a disk: for each subvolume, in the order of their numbers, a line `sub ID`, and then for each
/// name that leads from its directory 256 to an inode a line `ID KIND LINKS SIZE SUM PATH`, a symlink's with its target behind;
/// at last a line `done N`, where N is how many lines are those of names. Names in a directory stand in the order of their
/// bytes, each followed by what is below it. KIND is file, dir, chr, blk, fifo, sock or link; SUM the CRC-32C of a file of up to
/// 1 GiB, `compressed` or `encrypted` where its bytes are written so, and `-` of all else. The entry of another subvolume is
/// `ID sub - - - PATH`. Other bytes than 0x21 to 0x7e, and the backslash, are printed as `\x` and two digits (own).
///
/// Or the first fault: of the superblock, the chunks, the root tree, and then of each subvolume its tree, and in the order of the
/// lines a directory that was reached before, the inode's item, its extents, those that overlap, a symlink that hasn't one plain
/// inline extent, a file's bytes outside the chunks, and behind a directory's own line the entries in it. `Disk` comes only where
/// the disk's count of faults rose in this call.
pub fn list_foreign<D: Disk>(alloc: Global, disk: &mut D) -> Result<Vec<u8>, ReadFault>
    ensures answer { IfTold (known (D.seen disk.old) (D.lost disk.old)) (λ image. Answers (λ text. text.items) result (listing_of (D.count disk.old) image)) }
    ensures disk_fault { (result ≡ Err ReadFault.Disk) → HasRisen (D.faults disk.old) (D.faults disk.new) }
    ensures size { D.count disk.new ≡ D.count disk.old }
    ensures seen { D.seen disk.new ≡ D.seen disk.old }
    ensures lost { D.lost disk.new ≡ D.lost disk.old }
    ensures told { D.told disk.new ≡ D.told disk.old }
    ensures counted { D.faults disk.old ≤ D.faults disk.new }
{
    let opened = open(alloc, disk)?;
    let subs = subvolumes(alloc, disk, &opened.volume, &opened.superblock)?;
    let listed = list_subs(alloc, disk, &opened.volume, &subs)?;
    Ok(with_done(alloc, listed)?)
}
