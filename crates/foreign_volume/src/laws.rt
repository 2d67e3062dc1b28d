//! Laws of opened volumes: the functions here have no parameters and no body.
ghost use Rattle.std.specs.Prelude.{◌≡◌, ◌↔◌, ℕ, List, Ok};
ghost use Rattle.blk_base.specs.Bytes.{Image};
ghost use Rattle.foreign_format.specs.declared.superblock.Superblock.{Superblock};
ghost use Rattle.foreign_tree.specs.Tree.{VolumeValue};
ghost use Rattle.foreign_volume.specs.declared.roots.Subvolume.{Subvolume};
ghost use Rattle.foreign_volume.specs.Opened.{IsOpened, OpenedValue, opened_of};
ghost use Rattle.foreign_volume.specs.Roots.{AreSubvolumes, subvolumes_of};

/// A volume is opened exactly where the disk has one: superblock, chunks and chunk tree.
pub fn volume_is_opened()
    ensures { (blocks : ℕ) (image : Image) (opened : OpenedValue) → (opened_of blocks image ≡ Ok opened) ↔ IsOpened blocks image opened }
{}

/// There are subvolumes exactly where the volume has a root tree whose root items have no fault, and they are theirs.
pub fn subvolumes_are_read()
    ensures { (disk : List ℕ) (volume : VolumeValue) (superblock : Superblock) (subs : List Subvolume)
        → (subvolumes_of disk volume superblock ≡ Ok subs) ↔ AreSubvolumes disk volume superblock subs }
{}
