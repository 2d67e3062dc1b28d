//! The lines of a subvolume.
ghost use Rattle.std.specs.Prelude.{◌≡◌, ◌≤◌, ◌+◌, ◌*◌, ◌++◌, OnOk, IfOk, Some, option_map, unwrap_or, [], length, filter, sum_by, count_by, nat_eq, vec_len};
ghost use Rattle.std.specs.FinMap.{get};
ghost use Rattle.flat_model.specs.Records.{attributes_of};
ghost use Rattle.flat_record.specs.Reading.{target_of};
ghost use Rattle.blk_base.specs.Crc.{crc32c_of};
ghost use Rattle.flat_model.specs.Contents.{bytes_read};
ghost use Rattle.flat_model.specs.Operations.{file_there};
ghost use Rattle.flat_sub.specs.View.{sub_view, IsWellKept};
ghost use Rattle.io_edge.specs.Printed.{printed};
ghost use Rattle.volume_listing.specs.Listing.{kind_word, links_shown, size_shown, sum_shown, step_shown, path_shown, target_shown, word, line_of, attribute_line, attribute_lines, lines_at, is_there, lines_of, count_of};

use crate::text::{bytes_of, put_number_word};
use crate::walk::{Found, all_of};
use blk_base::{Name, OutOfMemory, Text, crc32c};
use flat_model::{Kind, NameAt};
use flat_record::{Inode, place_of};
use flat_sub::FlatSub;
use io_edge::{push_printed, push_sum};
use std::alloc::Global;

/// How many names a line shows of a directory.
const DIRECTORY_LINKS: usize = 1;

/// The inode of this number, where it is there.
fn inode_of(sub: &FlatSub, ino: u64) -> Option<&Inode>
    ensures { option_map (λ inode. inode.now) result ≡ get (sub_view sub.now).sub.inodes ino }
{
    match place_of(&sub.inodes, ino) {
        Some(at) => {
            let entry = &sub.inodes[at];
            Some(&entry.1)
        }
        None => None,
    }
}

/// How many of these names lead to an inode.
fn count_leading(names: &Vec<NameAt>, ino: u64) -> usize
    ensures { result ≡ count_by (λ at. nat_eq at.ino.0 ino) names.now.items }
{
    names.iter().filter(|at| at.ino.0 == ino).count()
}

/// How many bytes the names of a directory have together.
fn sum_lengths(names: &Vec<NameAt>, dir: u64) -> u128
    ensures value { result ≡ sum_by (λ at. length at.name) (filter (λ at. nat_eq at.dir.0 dir) names.now.items) }
    ensures most { result ≤ 255 * vec_len names.now }
{
    let mut sum: u128 = 0;
    for at in names {
        if at.dir.0 == dir {
            sum += at.name.as_bytes().len() as u128;
        }
    }
    sum
}

/// How many names a line shows.
fn links_shown(sub: &FlatSub, ino: u64, inode: &Inode) -> usize
    requires { IsWellKept sub.now }
    ensures { result ≡ links_shown (sub_view sub.now).sub ino inode.now }
{
    match inode.kind() {
        Kind::Dir => DIRECTORY_LINKS,
        Kind::File | Kind::Link => count_leading(&sub.names, ino),
    }
}

/// How many bytes a symlink's target has; 0 of others.
fn target_length(inode: &Inode) -> usize
    ensures { result ≡ length (unwrap_or (target_of inode.now) []) }
{
    match inode.target() {
        Some(target) => target.len(),
        None => 0,
    }
}

/// The size that a line shows, in bytes.
fn size_shown(sub: &FlatSub, ino: u64, inode: &Inode) -> u128
    requires { IsWellKept sub.now }
    ensures { result ≡ size_shown (sub_view sub.now).sub ino inode.now }
{
    match inode.kind() {
        Kind::File => u128::from(inode.size()),
        Kind::Dir => 2 * sum_lengths(&sub.names, ino),
        Kind::Link => target_length(inode) as u128,
    }
}

/// Adds the word of a kind, and a space.
fn put_kind_word(text: &mut Vec<u8>, kind: Kind) -> Result<(), OutOfMemory>
    ensures { OnOk result (text.new.items ≡ text.old.items ++ word (kind_word kind)) }
{
    let bytes: &[u8] = match kind {
        Kind::File => b"file ",
        Kind::Dir => b"dir ",
        Kind::Link => b"link ",
    };
    text.extend_from_slice(bytes)?;
    Ok(())
}

/// The CRC-32C of a file's bytes.
fn sum_of(alloc: Global, inode: &Inode) -> Result<u32, OutOfMemory>
    ensures { IfOk result (λ sum. let file = file_there (Some inode.now) in sum ≡ crc32c_of (bytes_read file 0 file.size)) }
{
    let content = inode.read(alloc, 0, inode.size())?;
    let bytes = bytes_of(alloc, &content)?;
    Ok(crc32c(&bytes))
}

/// Adds the sum that a line shows, and a space.
fn put_sum_word(alloc: Global, text: &mut Vec<u8>, inode: &Inode) -> Result<(), OutOfMemory>
    ensures { OnOk result (text.new.items ≡ text.old.items ++ word (sum_shown inode.now)) }
{
    match inode.kind() {
        Kind::File => {
            push_sum(text, sum_of(alloc, inode)?)?;
            text.push(b' ')?;
        }
        Kind::Dir | Kind::Link => text.extend_from_slice(b"- ")?,
    }
    Ok(())
}

/// Adds a name behind its slash.
fn put_step(text: &mut Vec<u8>, name: &Name) -> Result<(), OutOfMemory>
    ensures { OnOk result (text.new.items ≡ text.old.items ++ step_shown name.now) }
{
    text.push(b'/')?;
    push_printed(text, name.as_bytes())
}

/// Adds the names that lead to an inode, each behind a slash.
fn put_path(text: &mut Vec<u8>, path: &Vec<Name>) -> Result<(), OutOfMemory>
    ensures { OnOk result (text.new.items ≡ text.old.items ++ path_shown path.now.items) }
{
    if path.is_empty() {
        text.push(b'/')?;
        return Ok(());
    }
    for name in path {
        put_step(text, name)?;
    }
    Ok(())
}

/// Adds a text as it is printed.
fn put_text(alloc: Global, text: &mut Vec<u8>, added: &Text) -> Result<(), OutOfMemory>
    ensures { OnOk result (text.new.items ≡ text.old.items ++ printed added.now) }
{
    let bytes = bytes_of(alloc, added)?;
    push_printed(text, &bytes)
}

/// Adds a symlink's target behind a space.
fn put_target(alloc: Global, text: &mut Vec<u8>, inode: &Inode) -> Result<(), OutOfMemory>
    ensures { OnOk result (text.new.items ≡ text.old.items ++ target_shown inode.now) }
{
    match inode.target() {
        Some(target) => {
            text.push(b' ')?;
            put_text(alloc, text, target)
        }
        None => Ok(()),
    }
}

/// Adds the line of an inode at the end of these names.
fn put_line(
    alloc: Global,
    text: &mut Vec<u8>,
    sub: &FlatSub,
    found: &Found,
    inode: &Inode,
) -> Result<(), OutOfMemory>
    requires { IsWellKept sub.now }
    ensures { OnOk result (text.new.items ≡ text.old.items ++ line_of (sub_view sub.now).sub found.now inode.now) }
{
    let ino = found.ino;
    put_number_word(alloc, text, u128::from(ino))?;
    put_kind_word(text, inode.kind())?;
    put_number_word(alloc, text, links_shown(sub, ino, inode) as u128)?;
    put_number_word(alloc, text, size_shown(sub, ino, inode))?;
    put_sum_word(alloc, text, inode)?;
    put_path(text, &found.path)?;
    put_target(alloc, text, inode)?;
    text.push(b'\n')?;
    Ok(())
}

/// Adds the line of an attribute.
fn put_attribute(
    alloc: Global,
    text: &mut Vec<u8>,
    name: &Name,
    value: &Text,
) -> Result<(), OutOfMemory>
    ensures { OnOk result (text.new.items ≡ text.old.items ++ attribute_line (name.now, value.now)) }
{
    text.extend_from_slice(b" attr ")?;
    push_printed(text, name.as_bytes())?;
    text.push(b' ')?;
    put_text(alloc, text, value)?;
    text.push(b'\n')?;
    Ok(())
}

/// Adds the lines of an inode's attributes.
fn put_attributes(alloc: Global, text: &mut Vec<u8>, inode: &Inode) -> Result<(), OutOfMemory>
    ensures { OnOk result (text.new.items ≡ text.old.items ++ attribute_lines (attributes_of inode.now)) }
{
    for place in 0..inode.attribute_count() {
        let (name, value) = inode.attribute_at(place);
        put_attribute(alloc, text, name, value)?;
    }
    Ok(())
}

/// Adds the lines of what stands at the end of these names, and tells whether an inode does.
fn put_found(
    alloc: Global,
    text: &mut Vec<u8>,
    sub: &FlatSub,
    found: &Found,
) -> Result<bool, OutOfMemory>
    requires { IsWellKept sub.now }
    ensures text { OnOk result (text.new.items ≡ text.old.items ++ lines_at (sub_view sub.now).sub found.now) }
    ensures there { IfOk result (λ there. there ≡ is_there (sub_view sub.now).sub found.now) }
{
    match inode_of(sub, found.ino) {
        Some(inode) => {
            put_line(alloc, text, sub, found, inode)?;
            put_attributes(alloc, text, inode)?;
            Ok(true)
        }
        None => Ok(false),
    }
}

/// Adds the lines of a subvolume, and tells how many of them are those of inodes.
pub(crate) fn put_lines(
    alloc: Global,
    text: &mut Vec<u8>,
    sub: &FlatSub,
) -> Result<usize, OutOfMemory>
    requires { IsWellKept sub.now }
    ensures text { OnOk result (text.new.items ≡ text.old.items ++ lines_of (sub_view sub.now).sub) }
    ensures count { IfOk result (λ count. count ≡ count_of (sub_view sub.now).sub) }
{
    let all = all_of(alloc, sub)?;
    let mut count = 0;
    for found in &all {
        if put_found(alloc, text, sub, found)? {
            count += 1;
        }
    }
    Ok(count)
}
