ghost use Rattle.std.specs.Prelude.{◌≡◌};
ghost use Rattle.script_text.specs.Kinds.{Gives};
ghost use Rattle.script_text.specs.Words.{hex_digit, hex_byte, next_spot, text_of};
ghost use Rattle.script_text.specs.Paths.{text_up_to};

use crate::fault::{LineFault, ScriptKind};
use blk_base::Text;
use std::alloc::Global;

/// Where the reading of a text word stands.
#[derive(Clone, Copy)]
pub(crate) enum Spot {
    /// Behind a whole byte of the text.
    Between,
    /// Behind a backslash.
    Backslash,
    /// Behind `\x`.
    Hex,
    /// Behind `\x` and this byte.
    High(u8),
}

impl Spot {
    /// Where the reading stands behind one byte more, and the byte of the text that this one ends. `None` where a
    /// backslash is used otherwise than in `\\` and `\xHH`.
    fn next(self, byte: u8) -> Option<(Spot, Option<u8>)>
        ensures { result ≡ next_spot self byte }
    {
        match self {
            Spot::Between if byte == b'\\' => Some((Spot::Backslash, None)),
            Spot::Between => Some((Spot::Between, Some(byte))),
            Spot::Backslash if byte == b'\\' => Some((Spot::Between, Some(b'\\'))),
            Spot::Backslash if byte == b'x' => Some((Spot::Hex, None)),
            Spot::Backslash => None,
            Spot::Hex => Some((Spot::High(byte), None)),
            Spot::High(high) => Some((Spot::Between, Some(hex(high, byte)?))),
        }
    }
}

/// The number of a hexadecimal digit in lower case.
fn digit(byte: u8) -> Option<u8>
    ensures { result ≡ hex_digit byte }
{
    match byte {
        b'0'..=b'9' => Some(byte - b'0'),
        b'a'..=b'f' => Some(byte - b'a' + 10),
        _ => None,
    }
}

/// The byte of two hexadecimal digits in lower case.
fn hex(high: u8, low: u8) -> Option<u8>
    ensures { result ≡ hex_byte high low }
{
    let front = digit(high)?;
    let back = digit(low)?;
    Some(16 * front + back)
}

/// The bytes that the word spells: `\\` is a backslash, `\xHH` a byte, and every other byte itself (own). `Escape` where
/// a backslash is used otherwise.
pub(crate) fn text(alloc: Global, word: &[u8]) -> Result<Vec<u8>, LineFault>
    ensures { Gives (λ text. text.items) result (text_of word.now) }
{
    let mut text = Vec::new(alloc);
    let mut spot = Spot::Between;
    for byte in word {
        let Some((next, done)) = spot.next(*byte) else {
            return Err(LineFault::Kind(ScriptKind::Escape));
        };
        spot = next;
        if let Some(decoded) = done {
            text.push(decoded)?;
        }
    }
    match spot {
        Spot::Between => Ok(text),
        _ => Err(LineFault::Kind(ScriptKind::Escape)),
    }
}

/// The text that the word spells, of 1 to so many bytes; else `Path` (own).
#[tactic(auto, unfolding(crate::specs::Paths::text_up_to))]
pub(crate) fn text_up_to(alloc: Global, most: usize, word: &[u8]) -> Result<Text, LineFault>
    ensures { Gives (λ text. text) result (text_up_to most word.now) }
{
    let bytes = text(alloc, word)?;
    if bytes.is_empty() || most < bytes.len() {
        return Err(LineFault::Kind(ScriptKind::Path));
    }
    Ok(Text::new(alloc, bytes.as_slice())?)
}
