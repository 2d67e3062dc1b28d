ghost use Rattle.std.specs.Prelude.{◌≡◌, ◌≤◌, ◌+◌, ◌^◌, ◌<◌, length};
ghost use Rattle.foreign_format.specs.Items.{coding_of, extent_of, length_of};

use crate::bytes::u8_at;
use blk_base::{ItemFault, u16_at, u64_at};

/// How the bytes of an extent are written.
#[derive(Clone, Copy, Debug, PartialEq, Eq)]
pub enum Coding {
    Plain,
    Compressed,
    Encrypted,
}

/// Where the bytes of an extent come from.
#[derive(Clone, Copy, Debug, PartialEq, Eq)]
pub enum Source {
    /// They stand in the item, from this byte of the disk on.
    Inline { at: u64, length: u64 },
    /// They stand in the data extent at this logical address, from this byte of it on.
    Regular { at: u64, offset: u64, length: u64 },
    /// They are zeros: a hole, or preallocated.
    Zeros { length: u64 },
}

/// An extent of a file, at an offset in it in bytes.
#[derive(Clone, Copy, Debug, PartialEq, Eq)]
pub struct Extent {
    pub offset: u64,
    pub coding: Coding,
    pub source: Source,
}

impl Extent {
    /// How many bytes of the file the extent has.
    pub fn length(&self) -> u64
        ensures { result ≡ length_of self.now }
    {
        match self.source {
            Source::Inline { length, .. } => length,
            Source::Regular { length, .. } => length,
            Source::Zeros { length } => length,
        }
    }
}

/// How the bytes of an extent are written.
fn coding_of(item: &[u8]) -> Coding
    requires { 21 ≤ length item.now }
    ensures { result ≡ coding_of item.now }
{
    if u8_at(item, 16) != 0 {
        return Coding::Compressed;
    }
    if u8_at(item, 17) != 0 || u16_at(item, 18) != 0 {
        return Coding::Encrypted;
    }
    Coding::Plain
}

/// The extent in an item that stands at this byte of the disk, at this offset in the file, or the first check that the
/// item fails, in the order Size, Kind ("EXTENT_DATA" of the on-disk format).
#[tactic(auto, unfolding(crate::specs::Items::extent_of))]
pub fn read_extent(offset: u64, place: u64, item: &[u8]) -> Result<Extent, ItemFault>
    requires { place + length item.now < 2 ^ 64 }
    ensures { result ≡ extent_of offset place item.now }
{
    if item.len() < 21 {
        return Err(ItemFault::Size);
    }
    let coding = coding_of(item);
    let source = match u8_at(item, 20) {
        0 => {
            if item.len() == 21 {
                return Err(ItemFault::Size);
            }
            Source::Inline {
                at: place + 21,
                length: item.len() as u64 - 21,
            }
        }
        1 => {
            if item.len() != 53 {
                return Err(ItemFault::Size);
            }
            let at = u64_at(item, 21);
            let length = u64_at(item, 45);
            if at == 0 {
                Source::Zeros { length }
            } else {
                Source::Regular {
                    at,
                    offset: u64_at(item, 37),
                    length,
                }
            }
        }
        2 => {
            if item.len() != 53 {
                return Err(ItemFault::Size);
            }
            Source::Zeros {
                length: u64_at(item, 45),
            }
        }
        _ => return Err(ItemFault::Kind),
    };
    Ok(Extent {
        offset,
        coding,
        source,
    })
}
