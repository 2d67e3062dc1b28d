//! The line of what stands at a place.
ghost use Rattle.std.specs.Prelude.{◌≡◌, ◌≢◌, ◌≤◌, ◌*◌, ◌++◌, [], All, IfErr, IfOk, OnOk, Err, Ok, codes};
ghost use Rattle.std.specs.Fmt.{decimal};
ghost use Rattle.blk_base.specs.Causes.{HasRisen};
ghost use Rattle.disk_model.specs.Disk.{IfTold, known};
ghost use Rattle.io_edge.specs.Printed.{printed};
ghost use Rattle.foreign_format.specs.declared.fault.ReadFault.{ReadFault};
ghost use Rattle.foreign_format.specs.Answer.{Answers};
ghost use Rattle.foreign_format.specs.Chunks.{IsOnDisk};
ghost use Rattle.foreign_tree.specs.Tree.{disk_bytes, volume_value};
ghost use Rattle.foreign_listing.specs.Lines.{file_line, inode_in, inode_line, kind_word, line_of, link_line, path_shown, plain_line, sub_line, sum_word, word};
ghost use Rattle.foreign_listing.specs.View.{place_view, tree_value};

use crate::extents::{extents_of, target_of};
use crate::inodes::inode_of;
use crate::places::Place;
use crate::tree::Tree;
use blk_base::OutOfMemory;
use disk_model::Disk;
use foreign_file::{Sum, sum_of};
use foreign_format::{EntryKind, Inode, ReadFault};
use foreign_tree::Volume;
use io_edge::{push_number, push_printed, push_sum};
use std::alloc::Global;

/// The word of a kind.
fn kind_word(kind: EntryKind) -> &'static str
    ensures { result.now ≡ kind_word kind }
{
    match kind {
        EntryKind::File => "file",
        EntryKind::Dir => "dir",
        EntryKind::Chr => "chr",
        EntryKind::Blk => "blk",
        EntryKind::Fifo => "fifo",
        EntryKind::Sock => "sock",
        EntryKind::Link => "link",
        EntryKind::Sub => "sub",
    }
}

/// What is shown of a file's bytes.
fn sum_word(alloc: Global, sum: Sum) -> Result<Vec<u8>, OutOfMemory>
    ensures { IfOk result (λ text. text.items ≡ sum_word sum) }
{
    let mut text = Vec::new(alloc);
    match sum {
        Sum::Compressed => text.extend_from_slice(b"compressed")?,
        Sum::Encrypted => text.extend_from_slice(b"encrypted")?,
        Sum::Large => text.push(b'-')?,
        Sum::Taken(crc) => push_sum(&mut text, crc)?,
    }
    Ok(text)
}

/// Adds a text and a space.
fn put_word(line: &mut Vec<u8>, text: &[u8]) -> Result<(), OutOfMemory>
    ensures { OnOk result (line.new.items ≡ line.old.items ++ word text.now) }
{
    line.extend_from_slice(text)?;
    line.push(b' ')?;
    Ok(())
}

/// Adds a number in decimal and a space.
fn put_number(alloc: Global, line: &mut Vec<u8>, number: u64) -> Result<(), OutOfMemory>
    ensures { OnOk result (line.new.items ≡ line.old.items ++ word (decimal number)) }
{
    push_number(alloc, line, u128::from(number))?;
    line.push(b' ')?;
    Ok(())
}

/// Adds a path's text, a slash alone for the root directory.
fn put_path(line: &mut Vec<u8>, path: &[u8]) -> Result<(), OutOfMemory>
    ensures { OnOk result (line.new.items ≡ line.old.items ++ path_shown path.now) }
{
    if path.is_empty() {
        line.push(b'/')?;
        return Ok(());
    }
    line.extend_from_slice(path)?;
    Ok(())
}

/// The line of a subvolume's entry.
fn sub_line(alloc: Global, place: &Place) -> Result<Vec<u8>, OutOfMemory>
    ensures { IfOk result (λ line. line.items ≡ sub_line (place_view place.now)) }
{
    let mut line = Vec::new(alloc);
    push_number(alloc, &mut line, u128::from(place.to))?;
    line.extend_from_slice(b" sub - - - ")?;
    put_path(&mut line, &place.path)?;
    line.push(b'\n')?;
    Ok(line)
}

/// The line of an inode, with this in the place of its sum and this behind its path.
fn inode_line(
    alloc: Global,
    place: &Place,
    inode: Inode,
    sum: &[u8],
    behind: &[u8],
) -> Result<Vec<u8>, OutOfMemory>
    ensures { IfOk result (λ line. line.items ≡ inode_line (place_view place.now) inode sum.now behind.now) }
{
    let mut line = Vec::new(alloc);
    put_number(alloc, &mut line, place.to)?;
    put_word(&mut line, kind_word(place.kind).as_bytes())?;
    put_number(alloc, &mut line, u64::from(inode.links))?;
    put_number(alloc, &mut line, inode.size)?;
    put_word(&mut line, sum)?;
    put_path(&mut line, &place.path)?;
    line.extend_from_slice(behind)?;
    line.push(b'\n')?;
    Ok(line)
}

/// The inode at a place, or its fault.
fn inode_at(tree: &Tree, place: &Place) -> Result<Inode, ReadFault>
    ensures answer { Answers (λ inode. inode) result (inode_in tree.now.sub tree.now.inodes.items place.now.to) }
    ensures no_disk { IfErr result (λ fault. fault ≢ ReadFault.Disk) }
{
    match inode_of(tree, place.to) {
        Ok(inode) => Ok(inode),
        Err(fault) => Err(ReadFault::Foreign(fault)),
    }
}

/// The line of an inode without bytes that are shown.
fn plain_line(alloc: Global, tree: &Tree, place: &Place) -> Result<Vec<u8>, ReadFault>
    ensures answer { Answers (λ line. line.items) result (plain_line (tree_value tree.now) (place_view place.now)) }
    ensures no_disk { IfErr result (λ fault. fault ≢ ReadFault.Disk) }
{
    let inode = inode_at(tree, place)?;
    Ok(inode_line(alloc, place, inode, b"-", b"")?)
}

/// The line of a file.
fn file_line<D: Disk>(
    alloc: Global,
    disk: &mut D,
    volume: &Volume,
    tree: &Tree,
    place: &Place,
) -> Result<Vec<u8>, ReadFault>
    requires { All (IsOnDisk (4096 * D.count disk.old)) volume.now.chunks.items }
    ensures answer { IfTold (known (D.seen disk.old) (D.lost disk.old)) (λ image.
        Answers (λ line. line.items) result (file_line (volume_value volume.now) (disk_bytes image) (tree_value tree.now) (place_view place.now))) }
    ensures disk_fault { (result ≡ Err ReadFault.Disk) → HasRisen (D.faults disk.old) (D.faults disk.new) }
    ensures size { D.count disk.new ≡ D.count disk.old }
    ensures seen { D.seen disk.new ≡ D.seen disk.old }
    ensures lost { D.lost disk.new ≡ D.lost disk.old }
    ensures told { D.told disk.new ≡ D.told disk.old }
    ensures counted { D.faults disk.old ≤ D.faults disk.new }
{
    let inode = inode_at(tree, place)?;
    let extents = extents_of(alloc, tree, place.to)?;
    let sum = sum_of(alloc, disk, volume, inode.size, &extents)?;
    let shown = sum_word(alloc, sum)?;
    Ok(inode_line(alloc, place, inode, &shown, b"")?)
}

/// A target behind a space.
fn behind_space(alloc: Global, target: &[u8]) -> Result<Vec<u8>, OutOfMemory>
    ensures { IfOk result (λ text. text.items ≡ codes " " ++ printed target.now) }
{
    let mut text = Vec::new(alloc);
    text.push(b' ')?;
    push_printed(&mut text, target)?;
    Ok(text)
}

/// The line of a symlink, with its target behind a space.
fn link_line<D: Disk>(
    alloc: Global,
    disk: &mut D,
    tree: &Tree,
    place: &Place,
) -> Result<Vec<u8>, ReadFault>
    ensures answer { IfTold (known (D.seen disk.old) (D.lost disk.old)) (λ image.
        Answers (λ line. line.items) result (link_line (disk_bytes image) (tree_value tree.now) (place_view place.now))) }
    ensures disk_fault { (result ≡ Err ReadFault.Disk) → HasRisen (D.faults disk.old) (D.faults disk.new) }
    ensures size { D.count disk.new ≡ D.count disk.old }
    ensures seen { D.seen disk.new ≡ D.seen disk.old }
    ensures lost { D.lost disk.new ≡ D.lost disk.old }
    ensures told { D.told disk.new ≡ D.told disk.old }
    ensures counted { D.faults disk.old ≤ D.faults disk.new }
{
    let inode = inode_at(tree, place)?;
    let extents = extents_of(alloc, tree, place.to)?;
    let target = target_of(alloc, disk, tree.sub, place.to, inode.size, &extents)?;
    let behind = behind_space(alloc, &target)?;
    Ok(inode_line(alloc, place, inode, b"-", &behind)?)
}

/// The line of what stands at a place, by the kind of its entry, or the first fault: of the inode, of its extents, of a file's
/// bytes or a symlink's target.
pub(crate) fn line_of<D: Disk>(
    alloc: Global,
    disk: &mut D,
    volume: &Volume,
    tree: &Tree,
    place: &Place,
) -> Result<Vec<u8>, ReadFault>
    requires { All (IsOnDisk (4096 * D.count disk.old)) volume.now.chunks.items }
    ensures answer { IfTold (known (D.seen disk.old) (D.lost disk.old)) (λ image.
        Answers (λ line. line.items) result (line_of (volume_value volume.now) (disk_bytes image) (tree_value tree.now) (place_view place.now))) }
    ensures disk_fault { (result ≡ Err ReadFault.Disk) → HasRisen (D.faults disk.old) (D.faults disk.new) }
    ensures size { D.count disk.new ≡ D.count disk.old }
    ensures seen { D.seen disk.new ≡ D.seen disk.old }
    ensures lost { D.lost disk.new ≡ D.lost disk.old }
    ensures told { D.told disk.new ≡ D.told disk.old }
    ensures counted { D.faults disk.old ≤ D.faults disk.new }
{
    match place.kind {
        EntryKind::File => file_line(alloc, disk, volume, tree, place),
        EntryKind::Link => link_line(alloc, disk, tree, place),
        EntryKind::Sub => Ok(sub_line(alloc, place)?),
        EntryKind::Dir | EntryKind::Chr | EntryKind::Blk | EntryKind::Fifo | EntryKind::Sock => {
            plain_line(alloc, tree, place)
        }
    }
}
