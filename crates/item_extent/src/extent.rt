ghost use Rattle.std.specs.Prelude.{◌≡◌, ◌≤◌, false, length};
ghost use Rattle.blk_base.specs.Extents.{extent_in, extent_of, extent_type, is_hole as hole_test, is_inline as inline_test, is_regular as regular_test, is_short as short_test, log_extent_of};
ghost use Rattle.item_extent.specs.View.{answer_view};

use blk_base::format::BLOCK_SIZE;
use blk_base::limits::MOST_FILE_BYTES;
use blk_base::{Addr, ItemFault, Key, u8_at, u16_at, u64_at};

/// What an extent of a file holds ("EXTENT_DATA" of the on-disk format).
#[derive(Clone, Copy, Debug, PartialEq, Eq)]
pub enum Extent<'a> {
    /// Data in the item itself, a part of the item's bytes: the whole content of a symlink.
    Inline(&'a [u8]),
    /// A run of whole blocks at a byte address: `length` bytes from `offset` of it on (here always 0).
    Regular { at: Addr, offset: u64, length: u64 },
    /// In a log, so many bytes without a block.
    Hole { length: u64 },
}

impl<'a> Extent<'a> {
    /// The extent in an item of a subvolume's tree, or the first check that the item fails, in the order Size,
    /// Compressed, Encrypted, Preallocated, Kind, Align. Takes any bytes.
    #[tactic(auto, unfolding(blk_base::specs::Extents::extent_of))]
    pub fn open(key: &Key, bytes: &'a [u8]) -> Result<Extent<'a>, ItemFault>
        ensures { answer_view result ≡ extent_of key.now bytes.now }
    {
        read(false, key, bytes)
    }

    /// The extent in an item of a log, which may be a hole, or the first check that the item fails, as for `open`.
    #[tactic(auto, unfolding(blk_base::specs::Extents::log_extent_of))]
    pub fn open_log(key: &Key, bytes: &'a [u8]) -> Result<Extent<'a>, ItemFault>
        ensures { answer_view result ≡ log_extent_of key.now bytes.now }
    {
        read(true, key, bytes)
    }
}

fn read<'a>(holes: bool, key: &Key, bytes: &'a [u8]) -> Result<Extent<'a>, ItemFault>
    ensures { answer_view result ≡ extent_in holes key.now bytes.now }
{
    if is_short(bytes) {
        return Err(ItemFault::Size);
    }
    if u8_at(bytes, 16) != 0 {
        return Err(ItemFault::Compressed);
    }
    if u8_at(bytes, 17) != 0 || u16_at(bytes, 18) != 0 {
        return Err(ItemFault::Encrypted);
    }
    match u8_at(bytes, 20) {
        0 if is_inline(key, bytes) => Ok(Extent::Inline(&bytes[21..])),
        0 => Err(ItemFault::Align),
        1 if holes && is_hole(key, bytes) => Ok(Extent::Hole {
            length: u64_at(bytes, 45),
        }),
        1 if is_regular(key, bytes) => Ok(Extent::Regular {
            at: Addr(u64_at(bytes, 21)),
            offset: u64_at(bytes, 37),
            length: u64_at(bytes, 45),
        }),
        1 => Err(ItemFault::Align),
        2 => Err(ItemFault::Preallocated),
        _ => Err(ItemFault::Kind),
    }
}

/// A length that an item of its type can't have.
fn is_short(bytes: &[u8]) -> bool
    ensures same { result ≡ short_test bytes.now }
    ensures head { result ≡ false → 21 ≤ length bytes.now }
    ensures whole { result ≡ false → extent_type bytes.now ≡ 1 → length bytes.now ≡ 53 }
{
    if bytes.len() < 21 {
        return true;
    }
    match u8_at(bytes, 20) {
        0 => bytes.len() < 22,
        1 | 2 => bytes.len() != 53,
        _ => false,
    }
}

/// Whether the numbers of an inline extent are right.
fn is_inline(key: &Key, bytes: &[u8]) -> bool
    requires { 21 ≤ length bytes.now }
    ensures { result ≡ inline_test key.now bytes.now }
{
    u64_at(bytes, 8) == bytes.len() as u64 - 21 && key.offset == 0
}

/// Whether the numbers of a hole are right: no place on the disk, and whole blocks, at least one.
fn is_hole(key: &Key, bytes: &[u8]) -> bool
    requires { length bytes.now ≡ 53 }
    ensures { result ≡ hole_test key.now bytes.now }
{
    let length = u64_at(bytes, 45);
    u64_at(bytes, 21) == 0
        && u64_at(bytes, 29) == 0
        && u64_at(bytes, 37) == 0
        && u64_at(bytes, 8) == length
        && length % BLOCK_SIZE == 0
        && 0 < length
        && key.offset % BLOCK_SIZE == 0
}

/// Whether the numbers of a run of blocks are right: 1 to 4096 whole blocks, from the run's begin on.
fn is_regular(key: &Key, bytes: &[u8]) -> bool
    requires { length bytes.now ≡ 53 }
    ensures { result ≡ regular_test key.now bytes.now }
{
    let length = u64_at(bytes, 45);
    length % BLOCK_SIZE == 0
        && BLOCK_SIZE <= length
        && length <= MOST_FILE_BYTES
        && u64_at(bytes, 8) == length
        && u64_at(bytes, 29) == length
        && u64_at(bytes, 37) == 0
        && key.offset % BLOCK_SIZE == 0
}
