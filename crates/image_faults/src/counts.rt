ghost use Rattle.std.specs.Prelude.{◌≡◌, ◌*◌, ℕ, List, Contains, sum_by};
ghost use Rattle.std.specs.FinMap.{len};
ghost use Rattle.blk_base.specs.declared.format.TheConstants.{BLOCK_SIZE};
ghost use Rattle.blk_base.specs.declared.key.Key.{Key};
ghost use Rattle.blk_base.specs.ItemFaults.{HasItsKey};
ghost use Rattle.blk_base.specs.Leaf.{Item};
ghost use Rattle.flat_model.specs.Names.{links_of};
ghost use Rattle.volume_image.specs.Subvolume.{Data};
ghost use Rattle.image_faults.specs.Counts.{extent_bytes, names_said};
ghost use Rattle.image_faults.specs.Faulty.{AreReadable, HasData, HasRefsOnce};
ghost use Rattle.image_faults.specs.Said.{said_blocks, said_names};

/// Law: the blocks that readable items say of a file have as many bytes as its extents cover ("INODE_ITEM": nbytes).
pub fn files_have_the_bytes_of_their_extents()
    ensures { (items : List Item) (blocks : Data) (ino : ℕ) → AreReadable items → HasData items blocks → BLOCK_SIZE * len (said_blocks items blocks ino) ≡ sum_by (extent_bytes ino) items }
{}

/// Law: an inode has as many names as the refs of its items say, where each of its items has its key and no ref stands
/// twice in one ("INODE_ITEM": nlink).
pub fn inodes_have_the_names_of_their_refs()
    ensures { (items : List Item) (ino : ℕ) → AreReadable items
        → ((key : Key) (bytes : List ℕ) → Contains items (key, bytes) → key.objectid ≡ ino → HasItsKey key bytes)
        → ((key : Key) (bytes : List ℕ) → Contains items (key, bytes) → key.objectid ≡ ino → HasRefsOnce key bytes)
        → links_of (said_names items) ino ≡ sum_by (names_said ino) items }
{}
