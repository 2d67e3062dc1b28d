ghost use Rattle.std.specs.Prelude.{◌≡◌, ◌==◌, IfOk};
ghost use Rattle.std.specs.List.{position_or_len, before_first, after_first};
ghost use Rattle.script_text.specs.Words.{parts_at};
ghost use Rattle.script_text.specs.Parts.{bytes_of};

use blk_base::OutOfMemory;
use std::alloc::Global;

/// The place of the first byte of this value, counted from 0, or the number of bytes where none has it.
fn end_of(bytes: &[u8], at: u8) -> usize
    ensures { result ≡ position_or_len (λ byte. byte == at) bytes.now }
{
    for (place, byte) in bytes.iter().enumerate() {
        if *byte == at {
            return place;
        }
    }
    bytes.len()
}

/// What stands in front of the first byte of this value, and what stands behind it: all, and nothing, where none has it.
pub(crate) fn cut(bytes: &[u8], at: u8) -> (&[u8], &[u8])
    ensures front { result.0.now ≡ before_first (λ byte. byte == at) bytes.now }
    ensures back { result.1.now ≡ after_first (λ byte. byte == at) bytes.now }
{
    let end = end_of(bytes, at);
    if end < bytes.len() {
        (&bytes[..end], &bytes[end + 1..])
    } else {
        (bytes, &[])
    }
}

/// The parts between the bytes of this value, in their order. Fails only for want of memory.
pub(crate) fn parts(alloc: Global, bytes: &[u8], at: u8) -> Result<Vec<&[u8]>, OutOfMemory>
    ensures { IfOk result (λ parts. bytes_of parts.items ≡ parts_at at bytes.now) }
{
    let mut parts = Vec::new(alloc);
    let mut rest = bytes;
    let mut end = end_of(rest, at);
    while end < rest.len() {
        parts.push(&rest[..end])?;
        rest = &rest[end + 1..];
        end = end_of(rest, at);
    }
    parts.push(rest)?;
    Ok(parts)
}
