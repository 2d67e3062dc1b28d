ghost use Rattle.std.specs.Prelude.{◌≡◌, ℕ, List, length, Ok};
ghost use Rattle.blk_base.specs.Bytes.{IsImage};
ghost use Rattle.blk_base.specs.Superblock.{IsSuper, SuperValue};
ghost use Rattle.flat_model.specs.Volume.{Volume};
ghost use Rattle.volume_image.specs.Stands.{IsCommitted, Stands, super_block};
ghost use Rattle.volume_image.specs.Tree.{Image};
ghost use Rattle.image_order.specs.FirstFault.{Found, committed_of, standing_of, volume_in};
ghost use Rattle.image_order.specs.InLeaf.{IsCommittedAs};

/// Law: an image without a log has no fault exactly where it stands for a volume, the one that is found (own).
pub fn images_without_fault_stand()
    ensures stands { (image : Image) (found : Found) → IsImage image → standing_of image ≡ Ok found → found.super.log_root ≡ 0 → Stands image (volume_in image found) }
    ensures found { (image : Image) (volume : Volume) → Stands image volume → (found : Found) × (standing_of image ≡ Ok found) × (found.super.log_root ≡ 0) × (volume_in image found ≡ volume) }
{}

/// Law: apart from room and a log no fault is found exactly where the superblock commits to a volume, the one that is
/// found, with as many addresses in use (own).
pub fn images_without_fault_commit()
    ensures commits { (image : Image) (found : Found) → IsImage image → committed_of image ≡ Ok found → IsSuper (super_block image) (length image) found.super × IsCommittedAs image found }
    ensures found { (image : Image) (super : SuperValue) (volume : Volume) (reach : List ℕ) → IsSuper (super_block image) (length image) super → IsCommitted image super volume reach
        → (found : Found) × (committed_of image ≡ Ok found) × (found.super ≡ super) × (volume_in image found ≡ volume) × (length found.reached ≡ length reach) }
{}
