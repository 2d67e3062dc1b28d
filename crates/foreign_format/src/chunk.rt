//! Chunks: which bytes of the disk a logical address means.
ghost use Rattle.std.specs.Prelude.{◌≡◌, ◌≤◌, ◌<◌, ◌+◌, ◌^◌, [], OnOk, IfOk, IfSome, IsTrue, All, insert, length};
ghost use Rattle.foreign_format.specs.Answer.{Answers};
ghost use Rattle.foreign_format.specs.Chunks.{IsOnDisk, array_rows, chunk_of, follows, has_range, has_row, in_row, physical_of, put_row, row_end};

use crate::bytes::u8_at;
use crate::{ForeignFault, ReadFault};
use blk_base::{OutOfMemory, u16_at, u64_at};
use std::alloc::Global;

/// The type bit of a chunk that stands twice on one device.
const DUP: u64 = 32;

/// A range of logical addresses, in bytes, and where its first copy begins on the disk.
#[derive(Clone, Copy, Debug, PartialEq, Eq)]
pub struct Chunk {
    pub logical: u64,
    pub length: u64,
    pub physical: u64,
}

/// A chunk item under its logical address: its chunk, or the first check that the item fails.
#[derive(Clone, Copy, Debug, PartialEq, Eq)]
pub struct ChunkRow {
    pub logical: u64,
    pub chunk: Result<Chunk, ForeignFault>,
}

/// The chunk of an item, or the first check that the item fails ("CHUNK_ITEM" of the on-disk format). Only the first
/// stripe says where a chunk stands (own).
#[tactic(auto, unfolding(crate::specs::Chunks::chunk_of))]
fn read_chunk(logical: u64, item: &[u8]) -> Result<Chunk, ForeignFault>
    ensures { result ≡ chunk_of logical item.now }
{
    if item.len() < 32 {
        return Err(ForeignFault::Chunk(logical));
    }
    let kind = u64_at(item, 24);
    if kind & 39 != kind {
        return Err(ForeignFault::Profile(logical));
    }
    let stripes = if kind & DUP == DUP { 2 } else { 1 };
    if item.len() != 48 + 32 * stripes as usize || u16_at(item, 44) != stripes {
        return Err(ForeignFault::Chunk(logical));
    }
    let length = u64_at(item, 0);
    if length == 0 || u64::MAX - length < logical {
        return Err(ForeignFault::Chunk(logical));
    }
    Ok(Chunk {
        logical,
        length,
        physical: u64_at(item, 56),
    })
}

/// The row of a chunk item.
pub fn chunk_row(logical: u64, item: &[u8]) -> ChunkRow
    ensures { result ≡ record { logical = logical; chunk = chunk_of logical item.now } }
{
    ChunkRow {
        logical,
        chunk: read_chunk(logical, item),
    }
}

/// The place behind the rows that aren't above this logical address.
fn place_of(rows: &[ChunkRow], logical: u64) -> usize
    ensures within { result ≤ length rows.now }
    ensures place { (row : ChunkRow) → row.logical ≡ logical → put_row row rows.now ≡ insert rows.now result row }
{
    for (place, row) in rows.iter().enumerate() {
        if logical < row.logical {
            return place;
        }
    }
    rows.len()
}

/// Puts a row behind those that aren't above it (own).
pub fn put_row(rows: &mut Vec<ChunkRow>, row: ChunkRow) -> Result<(), OutOfMemory>
    ensures { OnOk result (rows.new.items ≡ put_row row rows.old.items) }
{
    let place = place_of(rows, row.logical);
    rows.insert(place, row)?;
    Ok(())
}

/// Whether a key of a system chunk and its chunk item stand at the front.
fn has_row(bytes: &[u8]) -> bool
    ensures value { result ≡ has_row bytes.now }
    ensures room { IsTrue result → row_end bytes.now ≤ length bytes.now }
{
    if bytes.len() < 65 {
        return false;
    }
    u64_at(bytes, 0) == 256 && u8_at(bytes, 8) == 228 && row_end(bytes) <= bytes.len()
}

/// Where the chunk item at the front ends.
fn row_end(bytes: &[u8]) -> usize
    requires { 65 ≤ length bytes.now }
    ensures value { result ≡ row_end bytes.now }
    ensures least { 65 ≤ result }
{
    65 + 32 * u16_at(bytes, 61) as usize
}

#[tactic(auto, using(crate::specs::Answer::answers_no_memory))]
/// The rows of the system chunks in a superblock, in ascending order ("Superblock": sys_chunk_array).
pub fn array_rows(alloc: Global, array: &[u8]) -> Result<Vec<ChunkRow>, ReadFault>
    ensures { Answers (λ rows. rows.items) result (array_rows 32 [] array.now) }
{
    let mut rows = Vec::new(alloc);
    let mut rest = array;
    for n in 0..32u32 {
        if rest.is_empty() {
            return Ok(rows);
        }
        if !has_row(rest) {
            return Err(ReadFault::Foreign(ForeignFault::Array));
        }
        let end = row_end(rest);
        put_row(&mut rows, chunk_row(u64_at(rest, 9), &rest[17..end]))?;
        let (_, behind) = rest.split_at(end);
        rest = behind;
    }
    Ok(rows)
}

/// Whether a chunk begins behind the end of the one before it, and stands on a disk of so many bytes.
fn follows(chunk: &Chunk, end: u128, disk_size: u64) -> bool
    ensures value { result ≡ follows disk_size end chunk.now }
    ensures on_disk { IsTrue result → IsOnDisk disk_size chunk.now }
{
    end <= u128::from(chunk.logical)
        && u128::from(chunk.physical) + u128::from(chunk.length) <= u128::from(disk_size)
}

/// The logical address behind a chunk.
fn end_of(chunk: &Chunk) -> u128
    ensures { result ≡ chunk.now.logical + chunk.now.length }
{
    u128::from(chunk.logical) + u128::from(chunk.length)
}

#[tactic(auto, using(crate::specs::Answer::answers_no_memory))]
/// The chunks of rows in ascending order: each stands on a disk of so many bytes, and behind the end of the one before it;
/// or the first fault.
pub fn mapped(alloc: Global, rows: &[ChunkRow], disk_size: u64) -> Result<Vec<Chunk>, ReadFault>
    ensures answer { Answers (λ chunks. chunks.items) result (in_row disk_size 0 [] rows.now) }
    ensures on_disk { IfOk result (λ chunks. All (IsOnDisk disk_size) chunks.items) }
{
    let mut chunks = Vec::new(alloc);
    let mut end: u128 = 0;
    for row in rows {
        match row.chunk {
            Err(fault) => return Err(ReadFault::Foreign(fault)),
            Ok(chunk) => {
                if !follows(&chunk, end, disk_size) {
                    return Err(ReadFault::Foreign(ForeignFault::Chunk(chunk.logical)));
                }
                end = end_of(&chunk);
                chunks.push(chunk)?;
            }
        }
    }
    Ok(chunks)
}

/// Whether a chunk has all of so many bytes from a logical address on.
fn has_range(chunk: &Chunk, at: u128, count: u64) -> bool
    requires { at < 2 ^ 66 }
    ensures value { result ≡ has_range chunk.now at count }
    ensures from { IsTrue result → chunk.now.logical ≤ at }
    ensures to { IsTrue result → at + count ≤ chunk.now.logical + chunk.now.length }
{
    u128::from(chunk.logical) <= at
        && at + u128::from(count) <= u128::from(chunk.logical) + u128::from(chunk.length)
}

/// Where `count` bytes from a logical address on stand on the disk, if they are wholly in one chunk.
pub fn physical_of(chunks: &[Chunk], at: u128, count: u64, disk_size: u64) -> Option<u64>
    requires on_disk { All (IsOnDisk disk_size) chunks.now }
    requires fits { at < 2 ^ 66 }
    ensures value { result ≡ physical_of chunks.now at count }
    ensures on_disk { IfSome result (λ place. place + count ≤ disk_size) }
{
    for chunk in chunks {
        if has_range(chunk, at, count) {
            return Some(chunk.physical + (at - u128::from(chunk.logical)) as u64);
        }
    }
    None
}
