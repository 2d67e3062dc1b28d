ghost use Rattle.std.specs.Prelude.{◌≡◌};
ghost use Rattle.std.specs.Result.{result_map_both};
ghost use Rattle.blk_base.specs.Items.{root_of, root_bytes};
ghost use Rattle.volume_format.specs.Views.{root_view};

use blk_base::format::{FIRST_FREE, ROOT_ITEM_SIZE};
use blk_base::{Addr, RootFault, put_u8, put_u32, put_u64, u8_at, u64_at};

/// What a root item says of a tree: its generation, and the byte address and level of its root ("ROOT_ITEM" of the
/// on-disk format).
#[derive(Clone, Copy, Debug, PartialEq, Eq)]
pub struct RootItem {
    /// The generation of the tree's root.
    pub generation: u64,
    /// The byte address of the tree's root.
    pub at: Addr,
    /// The level of the tree's root, 0 for a leaf.
    pub level: u8,
}

impl RootItem {
    /// Writes the root item over all 439 bytes, whatever they held ("ROOT_ITEM" of the on-disk format). Root
    /// directory 256, one reference and the second generation stand with it; the rest is zero (own).
    pub fn encode(&self, into: &mut [u8; ROOT_ITEM_SIZE])
        ensures { into.new ≡ root_bytes (root_view self.now) }
    {
        *into = [0; ROOT_ITEM_SIZE];
        put_u64(into, 160, self.generation);
        put_u64(into, 168, FIRST_FREE);
        put_u64(into, 176, self.at.0);
        put_u32(into, 216, 1);
        put_u8(into, 238, self.level);
        put_u64(into, 239, self.generation);
    }
    /// Reads a root item from any bytes ("ROOT_ITEM" of the on-disk format).
    ///
    /// # Errors
    ///
    /// `Size` exactly where there aren't 439 bytes.
    pub fn decode(bytes: &[u8]) -> Result<RootItem, RootFault>
        ensures { result_map_both root_view (λ fault. fault) result ≡ root_of bytes.now }
    {
        if bytes.len() != ROOT_ITEM_SIZE {
            return Err(RootFault::Size);
        }
        Ok(RootItem {
            generation: u64_at(bytes, 160),
            at: Addr(u64_at(bytes, 176)),
            level: u8_at(bytes, 238),
        })
    }
}
