ghost use Rattle.std.specs.Prelude.{◌≡◌, ◌↔◌, ◌<◌, ℕ, All, IsTrue, IfOk, List, bytes_eq};
ghost use Rattle.std.specs.Ordering.{nat_cmp};
ghost use Rattle.std.specs.Cmp.{partial_equiv_from_equiv};
ghost use Rattle.std.specs.Cmp.Lexicographic.{slice_cmp, nat_list_eq_equiv, nat_list_cmp_total, texts_ties, texts_po};
ghost use Rattle.std.proofs.Common.{Some, refl};
ghost use Rattle.blk_base.specs.Crc.{name_hash_of, extref_hash_of};
ghost use Rattle.blk_base.specs.Name.{IsName, is_name};

use crate::crc::crc_register;
use crate::fault::OutOfMemory;
use crate::format::{DOTS, HERE, MOST_NAME_BYTES};
use crate::key::Ino;
use std::alloc::Global;
use std::cmp::Ordering;
use std::marker::Model;

/// The hash of a name in the key of a DIR_ITEM ("DIR_ITEM" of the on-disk format; `btrfs_name_hash` of the kernel).
pub fn name_hash(name: &[u8]) -> u32
    ensures { result ≡ name_hash_of name.now }
{
    crc_register(0xffff_fffe, name)
}

/// The hash of a name in the key of an INODE_EXTREF, with the number of the directory that has it
/// ("INODE_EXTREF" of the on-disk format; `btrfs_extref_hash` of the kernel).
pub fn extref_hash(parent: Ino, name: &[u8]) -> u32
    ensures { result ≡ extref_hash_of parent.0 name.now }
{
    let start = (parent.0 & 0xffff_ffff) as u32;
    crc_register(start, name)
}

/// Whether the bytes may stand as a name in a directory: 1 to 255 bytes, none of them 0 or `/`, and neither `.` nor
/// `..` ("DIR_ITEM" of the on-disk format; own for the bytes that are refused).
pub fn is_name(bytes: &[u8]) -> bool
    ensures { IsTrue result ↔ IsName bytes.now }
{
    if bytes.is_empty() || MOST_NAME_BYTES < bytes.len() {
        return false;
    }
    if bytes == HERE || bytes == DOTS {
        return false;
    }
    bytes.iter().all(|byte| *byte != 0 && *byte != b'/')
}

/// The test of a name is true exactly where the bytes are one (own).
pub fn is_name_law()
    ensures { (bytes : List ℕ) → IsTrue (is_name bytes) ↔ IsName bytes }
{}

/// A name in a directory, seen as its bytes: 1 to 255 of them, none 0 or `/`, and neither `.` nor `..`.
#[derive(Debug, Drop)]
pub struct Name {
    bytes: Vec<u8>,
}

impl Model for Name {
    ghost use Rattle.std.specs.Prelude.{ℕ, ◌<◌, List, All};
    ghost use Rattle.blk_base.specs.Name.{IsName};

    ghost Value = { List ℕ };

    ghost view = { λ name. name.bytes.items };

    ghost invariant = { λ name. IsName name.bytes.items × All (λ byte. byte < 256) name.bytes.items };
}

impl Name {
    /// A name of its own with these bytes, which are one by `is_name`. Fails only for want of memory.
    pub fn new(alloc: Global, bytes: &[u8]) -> Result<Name, OutOfMemory>
        requires { IsName bytes.now }
        ensures { IfOk result (λ name. name ≡ bytes.now) }
    {
        let bytes = Vec::from_slice(alloc, bytes)?;
        Ok(Name { bytes })
    }

    /// The bytes of the name.
    pub fn as_bytes(&self) -> &[u8]
        ensures value { result.now ≡ self.now }
        ensures name { IsName self.now }
        ensures bytes { All (λ byte. byte < 256) self.now }
    {
        self.bytes.as_slice()
    }

    /// The same name once more. Fails only for want of memory.
    pub fn copy(&self, alloc: Global) -> Result<Name, OutOfMemory>
        ensures { IfOk result (λ name. name ≡ self.now) }
    {
        Name::new(alloc, self.as_bytes())
    }
}

impl PartialEq for Name {
    ghost eq = { bytes_eq };

    ghost laws = { partial_equiv_from_equiv nat_list_eq_equiv };

    fn eq(&self, other: &Name) -> bool {
        self.as_bytes() == other.as_bytes()
    }
}

impl Eq for Name {
    ghost laws = { nat_list_eq_equiv };
}

impl PartialOrd for Name {
    ghost partial_cmp = { λ one other. Some (slice_cmp nat_cmp one other) };

    ghost laws = { texts_po };

    fn partial_cmp(&self, other: &Name) -> Option<Ordering> {
        Some(self.cmp(other))
    }
}

impl Ord for Name {
    ghost cmp = { slice_cmp nat_cmp };

    ghost total = { nat_list_cmp_total };

    ghost matches_partial_cmp = { λ one other. refl };

    ghost matches_eq = { texts_ties };

    fn cmp(&self, other: &Name) -> Ordering {
        self.as_bytes().cmp(other.as_bytes())
    }
}

#[cfg(test)]
mod tests {
    use super::*;
    use std::test::Fail;

    #[test]
    fn hashes_are_those_of_btrfs(rt: HostRuntime) {
        assert_eq!(rt; name_hash(b"a"), 0xcc44_3fcc);
        assert_eq!(rt; name_hash(b"default"), 2_378_154_706);
        assert_eq!(rt; extref_hash(Ino(256), b"a"), 0x93ad_1060);
    }

    #[test]
    fn tells_names(rt: HostRuntime) {
        let long = [b'x'; 256];
        let table: [(&[u8], bool); 10] = [
            (b"", false),
            (b".", false),
            (b"..", false),
            (b"a", true),
            (b"...", true),
            (b"a.", true),
            (b"a/b", false),
            (b"a\0", false),
            (&long[..255], true),
            (&long, false),
        ];
        for (bytes, want) in table {
            assert_eq!(rt; is_name(bytes), want, "at {bytes:?}");
        }
        is_name_law();
    }

    #[test]
    fn keeps_and_orders_names(rt: HostRuntime) -> Result<(), Fail> {
        let (a, b): (&[u8], &[u8]) = (b"a", b"ab");
        assert!(rt; is_name(a));
        assert!(rt; is_name(b));
        let first = Name::new(rt.alloc(), a)?;
        let second = Name::new(rt.alloc(), b)?;
        assert_eq!(rt; second.as_bytes(), b);
        assert!(rt; first.copy(rt.alloc())? == first);
        assert!(rt; first != second);
        assert!(rt; first < second);
        Ok(())
    }
}
