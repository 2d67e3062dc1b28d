ghost use Rattle.std.specs.Prelude.{◌≡◌};
ghost use Rattle.foreign_format.specs.Items.{root_of};

use crate::bytes::u8_at;
use blk_base::{ItemFault, u32_at, u64_at};

/// The root of a tree in a root item: its logical address, its generation and its level, how many refer to the tree, and
/// the offset of the item's key.
#[derive(Clone, Copy, Debug, PartialEq, Eq)]
pub struct Root {
    pub offset: u64,
    pub at: u64,
    pub generation: u64,
    pub level: u8,
    pub refs: u32,
}

/// The root in an item of at least 239 bytes, whose key has this offset ("ROOT_ITEM" of the on-disk format).
pub fn read_root(offset: u64, item: &[u8]) -> Result<Root, ItemFault>
    ensures { result ≡ root_of offset item.now }
{
    if item.len() < 239 {
        return Err(ItemFault::Size);
    }
    Ok(Root {
        offset,
        at: u64_at(item, 176),
        generation: u64_at(item, 160),
        level: u8_at(item, 238),
        refs: u32_at(item, 216),
    })
}
