ghost use Rattle.std.specs.Prelude.{◌≡◌, ◌↔◌, ◌<◌, ◌≤◌, ◌+◌, ℕ, IsTrue, IfOk, List, [], All, length, replicate, slice_index, bytes_eq, take, drop};
ghost use Rattle.std.specs.Cmp.{partial_equiv_from_equiv};
ghost use Rattle.std.specs.Cmp.Lexicographic.{nat_list_eq_equiv};

use crate::fault::OutOfMemory;
use std::alloc::Global;
use std::marker::Model;

// How a text is kept: its bytes, or one byte and how many times it stands there.
#[derive(Debug, Drop)]
enum Kept {
    Bytes(Vec<u8>),
    Run { count: u32, byte: u8 },
}

/// A text, seen as its bytes. One that `repeat` made takes no memory.
#[derive(Debug, Drop)]
pub struct Text {
    kept: Kept,
}

impl Model for Text {
    ghost use Rattle.std.specs.Prelude.{ℕ, ◌<◌, List, All};

    ghost Value = { List ℕ };

    ghost use Rattle.blk_base.specs.Text.{kept_bytes};

    ghost view = { λ text. kept_bytes text.kept };

    ghost invariant = { λ text. All (λ byte. byte < 256) (kept_bytes text.kept) };
}

impl Text {
    /// A text of its own with these bytes. Fails only for want of memory.
    pub fn new(alloc: Global, bytes: &[u8]) -> Result<Text, OutOfMemory>
        ensures { IfOk result (λ text. text ≡ bytes.now) }
    {
        let bytes = Vec::from_slice(alloc, bytes)?;
        Ok(Text {
            kept: Kept::Bytes(bytes),
        })
    }

    /// The byte so many times. Takes no memory.
    pub fn repeat(count: u32, byte: u8) -> Text
        ensures { result ≡ replicate count byte }
    {
        Text {
            kept: Kept::Run { count, byte },
        }
    }

    /// The number of bytes.
    pub fn len(&self) -> usize
        ensures value { result ≡ length self.now }
        ensures bytes { All (λ byte. byte < 256) self.now }
    {
        match &self.kept {
            Kept::Bytes(bytes) => bytes.len(),
            Kept::Run { count, .. } => *count as usize,
        }
    }

    /// Whether it has no byte.
    pub fn is_empty(&self) -> bool
        ensures { IsTrue result ↔ (self.now ≡ []) }
    {
        self.len() == 0
    }

    /// The byte at this place, counted from 0.
    pub fn byte(&self, place: usize) -> u8
        requires { place < length self.now }
        ensures { result ≡ slice_index self.now place }
    {
        match &self.kept {
            Kept::Bytes(bytes) => bytes[place],
            Kept::Run { byte, .. } => *byte,
        }
    }

    /// Copies its bytes from a place on over all of a slice.
    pub fn copy_to(&self, place: usize, into: &mut [u8])
        requires { place + length into.old ≤ length self.now }
        ensures { into.new ≡ take (length into.old) (drop place self.now) }
    {
        match &self.kept {
            Kept::Bytes(bytes) => into.copy_from_slice(&bytes[place..place + into.len()]),
            Kept::Run { byte, .. } => into.fill(*byte),
        }
    }

    /// The same text once more, kept in the same way. Fails only for want of memory.
    pub fn copy(&self, alloc: Global) -> Result<Text, OutOfMemory>
        ensures { IfOk result (λ text. text ≡ self.now) }
    {
        match &self.kept {
            Kept::Bytes(bytes) => Text::new(alloc, bytes.as_slice()),
            Kept::Run { count, byte } => Ok(Text::repeat(*count, *byte)),
        }
    }
}

impl PartialEq for Text {
    ghost eq = { bytes_eq };

    ghost laws = { partial_equiv_from_equiv nat_list_eq_equiv };

    fn eq(&self, other: &Text) -> bool {
        if self.len() != other.len() {
            return false;
        }
        for place in 0..self.len() {
            if self.byte(place) != other.byte(place) {
                return false;
            }
        }
        true
    }
}

impl Eq for Text {
    ghost laws = { nat_list_eq_equiv };
}

#[cfg(test)]
mod tests {
    use super::*;
    use std::test::Fail;

    #[test]
    fn keeps_texts(rt: HostRuntime) -> Result<(), Fail> {
        let text = Text::new(rt.alloc(), b"zzz")?;
        let run = Text::repeat(3, b'z');
        assert_eq!(rt; text.len(), 3);
        assert_eq!(rt; run.len(), 3);
        assert_eq!(rt; run.byte(2), b'z');
        assert!(rt; text == run);
        let mut into = [0; 3];
        text.copy_to(1, &mut into[1..]);
        assert_eq!(rt; into, [0, b'z', b'z']);
        assert!(rt; text.copy(rt.alloc())? == run.copy(rt.alloc())?);
        assert!(rt; text != Text::new(rt.alloc(), b"zz")?);
        assert!(rt; Text::repeat(0, 1).is_empty());
        Ok(())
    }
}
