ghost use Rattle.std.specs.Prelude.{◌≡◌, ◌≤◌, ◌<◌, ◌+◌, ◌*◌};
ghost use Rattle.blk_base.specs.Bytes.{with_bytes};
ghost use Rattle.leaf_edit.specs.Images.{key_image};
ghost use Rattle.blk_base.specs.Keys.{KeyFits};
ghost use Rattle.blk_base.specs.Leaf.{header_at};

use blk_base::format::{BLOCK_SIZE, HEADER_SIZE, ITEM_HEADER_SIZE, MOST_ITEMS};
use blk_base::{Block, Key, put_bytes, put_u32, put_u64, u32_at};
use leaf_view::key_at;

/// An item header ("Leaf Node" of the on-disk format): the key, where the data begin behind the block's header, and how
/// many bytes they have.
#[derive(Clone, Copy, Debug, PartialEq, Eq)]
pub(crate) struct Header {
    pub(crate) key: Key,
    pub(crate) offset: u32,
    pub(crate) size: u32,
}

/// Writes the 17 bytes of a key at a place ("Key" of the on-disk format).
pub fn put_key(block: &mut Block, at: usize, key: &Key)
    requires { at + 17 ≤ BLOCK_SIZE }
    ensures written { block.new ≡ with_bytes block.old at (key_image key.now) }
    ensures fits { KeyFits key.now }
{
    put_u64(block, at, key.objectid);
    put_bytes(block, at + 8, &[key.kind]);
    put_u64(block, at + 9, key.offset);
}

impl Header {
    ghost use Rattle.leaf_edit.specs.Packed.{HeaderFits, header_of, header_bytes};

    /// The header of item i.
    pub(crate) fn read(block: &Block, i: usize) -> Header
        requires { i < MOST_ITEMS }
        ensures value { result ≡ header_of block.now i }
        ensures fits { HeaderFits result }
    {
        let at = HEADER_SIZE + ITEM_HEADER_SIZE * i;
        Header {
            key: key_at(block, at),
            offset: u32_at(block, at + 17),
            size: u32_at(block, at + 21),
        }
    }

    /// Writes the header of item i.
    pub(crate) fn write(&self, block: &mut Block, i: usize)
        requires { i < MOST_ITEMS }
        ensures written { block.new ≡ with_bytes block.old (header_at i) (header_bytes self.now) }
        ensures fits { HeaderFits self.now }
    {
        let at = HEADER_SIZE + ITEM_HEADER_SIZE * i;
        put_key(block, at, &self.key);
        put_u32(block, at + 17, self.offset);
        put_u32(block, at + 21, self.size);
    }
}
