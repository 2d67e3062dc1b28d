ghost use Rattle.std.specs.Prelude.{◌≡◌, ◌<◌, ◌∷◌, ℕ, List, [], Some};
ghost use Rattle.blk_base.specs.declared.key.Key.{Key};
ghost use Rattle.volume_image.specs.Subvolume.{Data};
ghost use Rattle.image_faults.specs.Lowest.{first_faulty};

/// Worked values: without items inode 256 is the first faulty one, and so it is where the one item is that of a greater
/// number; an item of a number below 256 makes that number the first (own).
pub fn worked_numbers()
    ensures nothing { (blocks : Data) → first_faulty [] blocks ≡ Some 256 }
    ensures above { (blocks : Data) (key : Key) (bytes : List ℕ) → 256 < key.objectid → first_faulty ((key, bytes) ∷ []) blocks ≡ Some 256 }
    ensures below { (blocks : Data) (key : Key) (bytes : List ℕ) → key.objectid < 256 → first_faulty ((key, bytes) ∷ []) blocks ≡ Some key.objectid }
{}
