//! The listing of a volume.
ghost use Rattle.std.specs.Prelude.{◌≡◌, ◌≤◌, ◌+◌, ◌-◌, ◌^◌, ◌++◌, min, OnOk, OnErr, IfOk, All, Err, codes, sum_by};
ghost use Rattle.std.specs.Fmt.{decimal};
ghost use Rattle.std.specs.List.{flat_map};
ghost use Rattle.io_edge.specs.Edge.{Takes, TakesFront};
ghost use Rattle.flat_model.specs.Volume.{volume_of};
ghost use Rattle.flat_sub.specs.View.{sub_view, IsWellKept};
ghost use Rattle.volume_listing.specs.Listing.{part_of, count_of, done_line, listing_of};
ghost use Rattle.volume_listing.specs.Parts.{part_at, count_at};

use crate::lines::put_lines;
use blk_base::OutOfMemory;
use flat_sub::FlatSub;
use flat_volume::FlatVolume;
use io_edge::{Sink, SinkFailed, put, push_number};
use std::alloc::Global;
use thiserror::Error;

/// Why a listing wasn't written whole.
#[derive(Clone, Copy, Debug, PartialEq, Eq, Error)]
pub enum ListFault {
    /// The sink failed.
    #[error("sink failed")]
    Sink,
    /// There was no memory for the text.
    #[error("no memory")]
    OutOfMemory,
}

/// Adds the lines of a subvolume behind the line of its number, and tells how many of them are those of inodes.
fn put_part(alloc: Global, text: &mut Vec<u8>, id: u64, sub: &FlatSub) -> Result<usize, OutOfMemory>
    requires { IsWellKept sub.now }
    ensures text { OnOk result (text.new.items ≡ text.old.items ++ part_of (id, (sub_view sub.now).sub)) }
    ensures count { IfOk result (λ count. count ≡ count_of (sub_view sub.now).sub) }
{
    text.extend_from_slice(b"sub ")?;
    push_number(alloc, text, u128::from(id))?;
    text.push(b'\n')?;
    put_lines(alloc, text, sub)
}

/// Adds the lines of all subvolumes, and tells how many of them are those of inodes.
fn put_parts(
    alloc: Global,
    text: &mut Vec<u8>,
    subs: &Vec<(u64, FlatSub)>,
) -> Result<u128, OutOfMemory>
    requires { All (λ entry. IsWellKept entry.1) subs.now.items }
    ensures text { OnOk result (text.new.items ≡ text.old.items ++ flat_map part_at subs.now.items) }
    ensures count { IfOk result (λ lines. lines ≡ sum_by count_at subs.now.items) }
{
    let mut lines: u128 = 0;
    for entry in subs {
        lines += put_part(alloc, text, entry.0, &entry.1)? as u128;
    }
    Ok(lines)
}

/// Adds the last line.
fn put_done(alloc: Global, text: &mut Vec<u8>, lines: u128) -> Result<(), OutOfMemory>
    ensures { OnOk result (text.new.items ≡ text.old.items ++ done_line lines) }
{
    text.extend_from_slice(b"done ")?;
    push_number(alloc, text, lines)?;
    text.push(b'\n')?;
    Ok(())
}

/// The listing of a volume. Fails only for want of memory.
fn listing(alloc: Global, volume: &FlatVolume) -> Result<Vec<u8>, OutOfMemory>
    ensures { IfOk result (λ text. text.items ≡ listing_of (volume_of volume.now)) }
{
    let mut text = Vec::new(alloc);
    let lines = put_parts(alloc, &mut text, volume.subvolumes())?;
    put_done(alloc, &mut text, lines)?;
    Ok(text)
}

/// Writes the listing of a volume: for each subvolume, in the order of their numbers, a line `sub ID`, and then for each
/// name that leads from its root directory to an inode a line `INO KIND LINKS SIZE SUM PATH`, a symlink's with its target
/// behind, and a line ` attr NAME VALUE` for each of its attributes; at last a line `done N`, where N is how many lines
/// are those of inodes. Names in a directory and attributes stand in the order of their bytes; other bytes than 0x21 to
/// 0x7e, and the backslash, are printed as `\x` and two digits (own).
///
/// The text is made before the first byte is written, so that nothing is written where there is no memory for it.
pub fn write_listing<K: Sink>(
    alloc: Global,
    volume: &FlatVolume,
    to: &mut K,
) -> Result<(), ListFault>
    ensures ok { OnOk result (Takes (K.taken to.old) (listing_of (volume_of volume.now)) (K.taken to.new)) }
    ensures front { OnErr result (TakesFront (K.taken to.old) (listing_of (volume_of volume.now)) (K.taken to.new)) }
    ensures count { K.faults to.old ≤ K.faults to.new }
    ensures cause { result ≡ Err ListFault.Sink → min (K.faults to.old + 1) (2 ^ 64 - 1) ≤ K.faults to.new }
    ensures memory { result ≡ Err ListFault.OutOfMemory → to.new ≡ to.old }
{
    let text = match listing(alloc, volume) {
        Ok(text) => text,
        Err(OutOfMemory) => return Err(ListFault::OutOfMemory),
    };
    match put(to, &text) {
        Ok(()) => Ok(()),
        Err(SinkFailed) => Err(ListFault::Sink),
    }
}
