//! The listing of a volume.
ghost use Rattle.std.specs.Prelude.{◌≡◌, ◌≤◌, ◌+◌, ◌-◌, ◌^◌, ◌++◌, min, OnOk, OnErr, IfOk, All, Err, List, sum_by};
ghost use Rattle.std.specs.List.{flat_map};
ghost use Rattle.io_edge.specs.Edge.{Takes, TakesFront};
ghost use Rattle.flat_model.specs.Volume.{RunVolume, volume_of};
ghost use Rattle.table_volume.specs.Running.{GiveVolume};
ghost use Rattle.volume_listing.specs.Listing.{done_line, listing_of};
ghost use Rattle.tree_listing.specs.Given.{IsGiven, count_at, part_at};

use crate::walk::put_lines;
use blk_base::OutOfMemory;
use block_table::{BlockTable, SubState};
use io_edge::{Sink, SinkFailed, push_number, put};
use std::alloc::Global;
use volume_listing::ListFault;

/// Adds the lines of a subvolume behind the line of its number, and tells how many of them are those of inodes.
fn put_part(
    alloc: Global,
    text: &mut Vec<u8>,
    table: &BlockTable,
    state: &SubState,
) -> Result<usize, OutOfMemory>
    requires { IsGiven table.now state.now }
    ensures text { OnOk result (text.new.items ≡ text.old.items ++ part_at table.now state.now) }
    ensures count { IfOk result (λ count. count ≡ count_at table.now state.now) }
{
    text.extend_from_slice(b"sub ")?;
    push_number(alloc, text, u128::from(state.tree.owner))?;
    text.push(b'\n')?;
    put_lines(alloc, text, table, state)
}

/// Adds the lines of all subvolumes, and tells how many of them are those of inodes.
fn put_parts(
    alloc: Global,
    text: &mut Vec<u8>,
    table: &BlockTable,
    states: &[SubState],
) -> Result<u128, OutOfMemory>
    requires { All (IsGiven table.now) states.now }
    ensures text { OnOk result (text.new.items ≡ text.old.items ++ flat_map (part_at table.now) states.now) }
    ensures count { IfOk result (λ lines. lines ≡ sum_by (count_at table.now) states.now) }
{
    let mut lines: u128 = 0;
    for state in states {
        lines += put_part(alloc, text, table, state)? as u128;
    }
    Ok(lines)
}

/// Adds the last line.
fn put_done(alloc: Global, text: &mut Vec<u8>, lines: u128) -> Result<(), OutOfMemory>
    ensures { OnOk result (text.new.items ≡ text.old.items ++ done_line lines) }
{
    text.extend_from_slice(b"done ")?;
    push_number(alloc, text, lines)?;
    text.push(b'\n')?;
    Ok(())
}

/// The listing of a volume. Fails only for want of memory.
fn listing(alloc: Global, table: &BlockTable, states: &[SubState]) -> Result<Vec<u8>, OutOfMemory>
    requires { (run : RunVolume) × GiveVolume table.now states.now run }
    ensures { (run : RunVolume) → GiveVolume table.now states.now run → IfOk result (λ text. text.items ≡ listing_of (volume_of run)) }
{
    let mut text = Vec::new(alloc);
    let lines = put_parts(alloc, &mut text, table, states)?;
    put_done(alloc, &mut text, lines)?;
    Ok(text)
}

/// Writes the listing of the volume that states give, which is that of the flat volume (`volume_listing`): for each
/// subvolume, in the order of their numbers, a line `sub ID`, and then for each name that leads from its root directory to
/// an inode a line `INO KIND LINKS SIZE SUM PATH`, a symlink's with its target behind, and a line ` attr NAME VALUE` for
/// each of its attributes; at last a line `done N`, where N is how many lines are those of inodes (own).
///
/// The text is made before the first byte is written, so that nothing is written where there is no memory for it. Beside
/// the text, memory is taken for the places that wait, the names of one directory and the attributes of one inode.
pub fn write_tree_listing<K: Sink>(
    alloc: Global,
    table: &BlockTable,
    states: &[SubState],
    to: &mut K,
) -> Result<(), ListFault>
    requires given { (run : RunVolume) × GiveVolume table.now states.now run }
    ensures ok { (run : RunVolume) → GiveVolume table.now states.now run
        → OnOk result (Takes (K.taken to.old) (listing_of (volume_of run)) (K.taken to.new)) }
    ensures front { (run : RunVolume) → GiveVolume table.now states.now run
        → OnErr result (TakesFront (K.taken to.old) (listing_of (volume_of run)) (K.taken to.new)) }
    ensures count { K.faults to.old ≤ K.faults to.new }
    ensures cause { result ≡ Err ListFault.Sink → min (K.faults to.old + 1) (2 ^ 64 - 1) ≤ K.faults to.new }
    ensures memory { result ≡ Err ListFault.OutOfMemory → to.new ≡ to.old }
{
    let text = match listing(alloc, table, states) {
        Ok(text) => text,
        Err(OutOfMemory) => return Err(ListFault::OutOfMemory),
    };
    match put(to, &text) {
        Ok(()) => Ok(()),
        Err(SinkFailed) => Err(ListFault::Sink),
    }
}
