ghost use Rattle.std.specs.Prelude.{◌≡◌, ◌<◌, ◌≤◌, ◌+◌, length};
ghost use Rattle.blk_base.specs.Bytes.{field, with_field, with_bytes};

use byteorder::{ByteOrder, LittleEndian};

/// The byte at a place.
#[tactic(auto, unfolding(crate::specs::Bytes::field))]
pub fn u8_at(bytes: &[u8], at: usize) -> u8
    requires { at < length bytes.now }
    ensures { result ≡ field 1 bytes.now at }
{
    bytes[at]
}

/// The little-endian field of two bytes at a place.
#[tactic(auto, unfolding(crate::specs::Bytes::field))]
pub fn u16_at(bytes: &[u8], at: usize) -> u16
    requires { at + 2 ≤ length bytes.now }
    ensures { result ≡ field 2 bytes.now at }
{
    LittleEndian::read_u16(&bytes[at..])
}

/// The little-endian field of four bytes at a place.
#[tactic(auto, unfolding(crate::specs::Bytes::field))]
pub fn u32_at(bytes: &[u8], at: usize) -> u32
    requires { at + 4 ≤ length bytes.now }
    ensures { result ≡ field 4 bytes.now at }
{
    LittleEndian::read_u32(&bytes[at..])
}

/// The little-endian field of eight bytes at a place.
#[tactic(auto, unfolding(crate::specs::Bytes::field))]
pub fn u64_at(bytes: &[u8], at: usize) -> u64
    requires { at + 8 ≤ length bytes.now }
    ensures { result ≡ field 8 bytes.now at }
{
    LittleEndian::read_u64(&bytes[at..])
}

/// Writes a byte at a place.
pub fn put_u8(bytes: &mut [u8], at: usize, value: u8)
    requires { at < length bytes.old }
    ensures { bytes.new ≡ with_field 1 bytes.old at value }
{
    put_bytes(bytes, at, &[value]);
}

/// Writes a little-endian field of two bytes at a place.
pub fn put_u16(bytes: &mut [u8], at: usize, value: u16)
    requires { at + 2 ≤ length bytes.old }
    ensures { bytes.new ≡ with_field 2 bytes.old at value }
{
    let mut field = [0; 2];
    LittleEndian::write_u16(&mut field, value);
    put_bytes(bytes, at, &field);
}

/// Writes a little-endian field of four bytes at a place.
pub fn put_u32(bytes: &mut [u8], at: usize, value: u32)
    requires { at + 4 ≤ length bytes.old }
    ensures { bytes.new ≡ with_field 4 bytes.old at value }
{
    let mut field = [0; 4];
    LittleEndian::write_u32(&mut field, value);
    put_bytes(bytes, at, &field);
}

/// Writes a little-endian field of eight bytes at a place.
pub fn put_u64(bytes: &mut [u8], at: usize, value: u64)
    requires { at + 8 ≤ length bytes.old }
    ensures { bytes.new ≡ with_field 8 bytes.old at value }
{
    let mut field = [0; 8];
    LittleEndian::write_u64(&mut field, value);
    put_bytes(bytes, at, &field);
}

/// Writes bytes at a place.
#[tactic(auto, unfolding(crate::specs::Bytes::with_bytes))]
pub fn put_bytes(bytes: &mut [u8], at: usize, content: &[u8])
    requires { at + length content.now ≤ length bytes.old }
    ensures { bytes.new ≡ with_bytes bytes.old at content.now }
{
    bytes[at..at + content.len()].copy_from_slice(content);
}
