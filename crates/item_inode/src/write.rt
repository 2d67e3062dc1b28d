ghost use Rattle.std.specs.Prelude.{◌≡◌, ◌+◌, ◌⊎◌, length};
ghost use Rattle.blk_base.specs.Entries.{dots, extref_bytes, ref_bytes};
ghost use Rattle.blk_base.specs.Name.{IsName};

use blk_base::{Ino, put_bytes, put_u16, put_u64};

/// Writes a name of an inode in the item's directory, with the directory's index of it. `into` has 10 bytes more than
/// the name.
pub fn put_ref(index: u64, name: &[u8], into: &mut [u8])
    requires name { IsName name.now ⊎ (name.now ≡ dots) }
    requires room { length into.old ≡ 10 + length name.now }
    ensures { into.new ≡ ref_bytes record { index = index; name = name.now } }
{
    put_u64(into, 0, index);
    put_u16(into, 8, name.len() as u16);
    put_bytes(into, 10, name);
}

/// Writes a name of an inode with its directory and the directory's index of it. `into` has 18 bytes more than the
/// name.
pub fn put_extref(parent: Ino, index: u64, name: &[u8], into: &mut [u8])
    requires name { IsName name.now }
    requires room { length into.old ≡ 18 + length name.now }
    ensures { into.new ≡ extref_bytes record { parent = parent.0; index = index; name = name.now } }
{
    put_u64(into, 0, parent.0);
    put_u64(into, 8, index);
    put_u16(into, 16, name.len() as u16);
    put_bytes(into, 18, name);
}
