//! Bytes, sums and numbers as they are printed.
ghost use Rattle.std.specs.Prelude.{◌≡◌, ◌<◌, ◌++◌, OnOk, OnErr, false};
ghost use Rattle.std.specs.Fmt.{decimal, digit_glyph};
ghost use Rattle.io_edge.specs.Edge.{Takes, TakesFront, HasCause};
ghost use Rattle.io_edge.specs.Printed.{is_plain, hex_pair, printed_byte, printed, hex8};

use crate::{Sink, SinkFailed, put};
use blk_base::{OutOfMemory, Text};
use std::alloc::Global;

/// The hexadecimal digit of a number below 16, lower case (own).
fn hex_digit(value: u8) -> u8
    requires { value < 16 }
    ensures { result ≡ digit_glyph false value }
{
    if value < 10 {
        b'0' + value
    } else {
        b'a' + (value - 10)
    }
}

/// Adds a byte in two hexadecimal digits.
fn push_hex(text: &mut Vec<u8>, byte: u8) -> Result<(), OutOfMemory>
    ensures { OnOk result (text.new.items ≡ text.old.items ++ hex_pair byte) }
{
    text.push(hex_digit(byte / 16))?;
    text.push(hex_digit(byte % 16))?;
    Ok(())
}

/// Adds a sum in eight hexadecimal digits, lower case (own).
pub fn push_sum(text: &mut Vec<u8>, sum: u32) -> Result<(), OutOfMemory>
    ensures { OnOk result (text.new.items ≡ text.old.items ++ hex8 sum) }
{
    push_hex(text, (sum / 16_777_216) as u8)?;
    push_hex(text, (sum / 65_536 % 256) as u8)?;
    push_hex(text, (sum / 256 % 256) as u8)?;
    push_hex(text, (sum % 256) as u8)
}

/// Whether a byte is printed as itself: 0x21 to 0x7e, but the backslash (own).
fn is_plain(byte: u8) -> bool
    ensures { result ≡ is_plain byte }
{
    0x21 <= byte && byte <= 0x7e && byte != b'\\'
}

/// Adds a byte as it is printed.
fn push_byte(text: &mut Vec<u8>, byte: u8) -> Result<(), OutOfMemory>
    ensures { OnOk result (text.new.items ≡ text.old.items ++ printed_byte byte) }
{
    if is_plain(byte) {
        text.push(byte)?;
        return Ok(());
    }
    text.extend_from_slice(b"\\x")?;
    push_hex(text, byte)
}

/// Adds bytes as they are printed: 0x21 to 0x7e but the backslash as themselves, and each other one as `\x` and two
/// hexadecimal digits (own).
#[tactic(auto, unfolding(crate::specs::Printed::printed))]
pub fn push_printed(text: &mut Vec<u8>, bytes: &[u8]) -> Result<(), OutOfMemory>
    ensures { OnOk result (text.new.items ≡ text.old.items ++ printed bytes.now) }
{
    for byte in bytes {
        push_byte(text, *byte)?;
    }
    Ok(())
}

/// Adds a number in decimal.
pub fn push_number(alloc: Global, text: &mut Vec<u8>, number: u128) -> Result<(), OutOfMemory>
    ensures { OnOk result (text.new.items ≡ text.old.items ++ decimal number) }
{
    let digits = format!(in alloc; "{number}")?;
    text.extend_from_slice(digits.as_bytes())?;
    Ok(())
}

/// Writes a byte as it is printed.
fn put_byte<K: Sink>(to: &mut K, byte: u8) -> Result<(), SinkFailed>
    ensures whole { OnOk result (Takes (K.taken to.old) (printed_byte byte) (K.taken to.new)) }
    ensures front { OnErr result (TakesFront (K.taken to.old) (printed_byte byte) (K.taken to.new)) }
    ensures cause { HasCause (K.faults to.old) (K.faults to.new) result }
{
    if is_plain(byte) {
        return put(to, &[byte]);
    }
    put(
        to,
        &[b'\\', b'x', hex_digit(byte / 16), hex_digit(byte % 16)],
    )
}

/// Writes bytes as they are printed. Where the sink fails it has taken a front of them (own).
pub fn put_printed<K: Sink>(to: &mut K, bytes: &Text) -> Result<(), SinkFailed>
    ensures whole { OnOk result (Takes (K.taken to.old) (printed bytes.now) (K.taken to.new)) }
    ensures front { OnErr result (TakesFront (K.taken to.old) (printed bytes.now) (K.taken to.new)) }
    ensures cause { HasCause (K.faults to.old) (K.faults to.new) result }
{
    for place in 0..bytes.len() {
        put_byte(to, bytes.byte(place))?;
    }
    Ok(())
}
