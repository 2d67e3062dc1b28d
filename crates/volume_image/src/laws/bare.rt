ghost use Rattle.std.specs.Prelude.{◌≡◌, ◌≤◌, ◌<◌, ◌+◌, ◌^◌, ◌++◌, ◌∷◌, ℕ, List, [], length, Ok};
ghost use Rattle.blk_base.specs.Leaf.{leaf_of};
ghost use Rattle.blk_base.specs.Superblock.{SuperValue, IsSuper};
ghost use Rattle.flat_model.specs.Volume.{bare_volume, subvolume_ids};
ghost use Rattle.volume_image.specs.Tree.{Image, IsTree, NoneTwice, block_of};
ghost use Rattle.volume_image.specs.Stands.{StandsBy, super_block};
ghost use Rattle.volume_image.specs.Roots.{root_want, sub_want};
ghost use Rattle.volume_image.specs.Bare.{AreBareLeaves, bare_items, bare_root, bare_root_items, bare_roots_items};

/// A superblock without a log whose root tree is a leaf at block 17 with a root item for subvolume 5, whose tree is
/// a leaf at block 18 with nothing but the root directory: the image stands for the volume of one bare subvolume,
/// by these two blocks (own).
pub fn bare_volume_stands()
    ensures { (image : Image) (super : SuperValue) → IsSuper (super_block image) (length image) super
        → super.log_root ≡ 0 → super.root ≡ 69632 → super.root_level ≡ 0 → super.generation < 2 ^ 64
        → leaf_of (root_want super) (block_of image 69632) ≡ Ok (bare_root_items super.generation 73728)
        → leaf_of (sub_want super 5 (bare_root super.generation 73728)) (block_of image 73728) ≡ Ok (bare_items super.generation)
        → StandsBy image (bare_volume 1) (69632 ∷ 73728 ∷ []) }
{}

/// The same for 1 to 16 subvolumes, each a leaf with nothing but its root directory, and a root tree of any shape: the
/// image stands for that many bare subvolumes, by the root tree's reach and then these leaves (own).
pub fn bare_volumes_stand()
    ensures { (image : Image) (super : SuperValue) (root_reach addresses : List ℕ) → IsSuper (super_block image) (length image) super
        → super.log_root ≡ 0 → super.generation < 2 ^ 64
        → 1 ≤ length addresses → length addresses ≤ 16
        → IsTree image super.blocks (root_want super) (bare_roots_items super.generation (subvolume_ids (length addresses)) addresses) root_reach
        → AreBareLeaves image super (subvolume_ids (length addresses)) addresses
        → NoneTwice (root_reach ++ addresses) → length (root_reach ++ addresses) + 198 ≤ super.blocks
        → StandsBy image (bare_volume (length addresses)) (root_reach ++ addresses) }
{}
