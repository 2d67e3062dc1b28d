ghost use Rattle.std.specs.Prelude.{◌≡◌};
ghost use Rattle.blk_base.specs.Items.{range_of};

use blk_base::format::RANGE_SIZE;
use blk_base::{ItemFault, u64_at};

/// A range of a log: indexes of a directory that the log covers, from the key's offset on ("DIR_LOG_INDEX" of the
/// on-disk format).
pub struct DirRange;

impl DirRange {
    /// The last index of the range, or Size where there are not 8 bytes. Takes any bytes.
    #[tactic(auto, unfolding(blk_base::specs::Items::range_of))]
    pub fn decode(bytes: &[u8]) -> Result<u64, ItemFault>
        ensures { result ≡ range_of bytes.now }
    {
        if bytes.len() != RANGE_SIZE {
            return Err(ItemFault::Size);
        }
        Ok(u64_at(bytes, 0))
    }
}
