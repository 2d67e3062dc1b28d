//! Laws of listings: the functions here have no parameters, and do nothing.
ghost use Rattle.std.specs.Prelude.{◌≡◌, ◌↔◌, ℕ, List, Ok};
ghost use Rattle.blk_base.specs.Bytes.{Image};
ghost use Rattle.foreign_listing.specs.Foreign.{IsForeign};
ghost use Rattle.foreign_listing.specs.Listing.{listing_of};

use foreign_items::laws::items_are_read;
use foreign_volume::laws::{subvolumes_are_read, volume_is_opened};

/// A listing is made exactly where the disk has a foreign volume, and it is that volume's.
pub fn volume_is_listed()
    ensures { (blocks : ℕ) (image : Image) (text : List ℕ) → (listing_of blocks image ≡ Ok text) ↔ IsForeign blocks image text }
{
    // What it rests on: the laws of the volume, of its subvolumes and of their items.
    volume_is_opened();
    subvolumes_are_read();
    items_are_read();
}
