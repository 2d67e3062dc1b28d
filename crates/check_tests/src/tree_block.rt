//! Tree blocks of rows: a leaf of items, a node of pointers. Nothing in them is checked but that they have room.
ghost use Rattle.std.specs.Prelude.{◌<◌};

use anyhow::{Result, bail};
use blk_base::format::{HEADER_SIZE, ITEM_HEADER_SIZE, MOST_ITEMS, MOST_POINTERS, POINTER_SIZE};
use blk_base::{Block, Key, Want, crc32c, put_bytes, put_u8, put_u32, put_u64};
use std::collections::BTreeMap;

/// The bytes under each key.
pub type Rows = BTreeMap<Key, Vec<u8>>;

/// Makes the sum of a block right ("Header": csum).
pub fn put_sum(block: &mut Block) {
    let sum = crc32c(&block[32..]);
    put_u32(block, 0, sum);
}

/// A tree block with this header and no body, of so many items or pointers ("Header").
fn headed(want: &Want, count: u32) -> Block {
    let mut block = [0; 4096];
    put_bytes(&mut block, 32, &want.fsid);
    put_u64(&mut block, 48, want.at.0);
    put_u64(&mut block, 80, want.generation);
    put_u64(&mut block, 88, want.owner);
    put_u32(&mut block, 96, count);
    put_u8(&mut block, 100, want.level);
    block
}

/// Writes a key ("Key").
fn put_key(block: &mut Block, at: usize, key: &Key)
    requires { at < 4080 }
{
    put_u64(block, at, key.objectid);
    put_u8(block, at + 8, key.kind);
    put_u64(block, at + 9, key.offset);
}

/// Writes the item at a place of a leaf with its data up to `end`, and answers where they begin ("Leaf Node").
fn put_item(block: &mut Block, place: usize, end: usize, key: &Key, bytes: &[u8]) -> Result<usize> {
    let size = bytes.len();
    if place >= MOST_ITEMS || end > 4096 || size > end {
        bail!("a leaf is full");
    }
    let (header, at) = (HEADER_SIZE + ITEM_HEADER_SIZE * place, end - size);
    if at < header + ITEM_HEADER_SIZE {
        bail!("a leaf is full");
    }
    put_key(block, header, key);
    put_u32(block, header + 17, (at - HEADER_SIZE) as u32);
    put_u32(block, header + 21, size as u32);
    put_bytes(block, at, bytes);
    Ok(at)
}

/// Writes the pointer at a place of a node, whose 16 bytes are an address and a generation ("Internal Node").
fn put_pointer(block: &mut Block, place: usize, key: &Key, bytes: &[u8]) -> Result<()> {
    if place >= MOST_POINTERS || bytes.len() != 16 {
        bail!("no pointer");
    }
    let at = HEADER_SIZE + POINTER_SIZE * place;
    put_key(block, at, key);
    put_bytes(block, at + 17, bytes);
    Ok(())
}

/// The header of a block that has these rows.
fn headed_for(want: &Want, rows: &Rows) -> Result<Block> {
    match u32::try_from(rows.len()) {
        Ok(count) => Ok(headed(want, count)),
        Err(_) => bail!("too many rows"),
    }
}

/// A leaf of these items, with its sum right.
pub fn leaf_of(want: &Want, rows: &Rows) -> Result<Block> {
    let mut block = headed_for(want, rows)?;
    let mut end = 4096;
    for (place, (key, bytes)) in rows.iter().enumerate() {
        end = put_item(&mut block, place, end, key, bytes)?;
    }
    put_sum(&mut block);
    Ok(block)
}

/// A node of these pointers, with its sum right.
pub fn node_of(want: &Want, rows: &Rows) -> Result<Block> {
    let mut block = headed_for(want, rows)?;
    for (place, (key, bytes)) in rows.iter().enumerate() {
        put_pointer(&mut block, place, key, bytes)?;
    }
    put_sum(&mut block);
    Ok(block)
}
