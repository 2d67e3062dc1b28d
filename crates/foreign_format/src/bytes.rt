ghost use Rattle.std.specs.Prelude.{◌≡◌, ◌<◌, ◌≤◌, ◌+◌, length};
ghost use Rattle.blk_base.specs.Bytes.{field};
ghost use Rattle.blk_base.specs.Keys.{key_at};

use blk_base::{Key, u64_at};

/// The byte at a place, as a number of one byte.
#[tactic(auto, unfolding(blk_base::specs::Bytes::field))]
pub(crate) fn u8_at(bytes: &[u8], at: usize) -> u8
    requires { at < length bytes.now }
    ensures { result ≡ field 1 bytes.now at }
{
    bytes[at]
}

/// The key in the 17 bytes at a place ("Key" of the on-disk format).
pub(crate) fn key_at(bytes: &[u8], at: usize) -> Key
    requires { at + 17 ≤ length bytes.now }
    ensures { result ≡ key_at bytes.now at }
{
    Key {
        objectid: u64_at(bytes, at),
        kind: u8_at(bytes, at + 8),
        offset: u64_at(bytes, at + 9),
    }
}
