//! A law for a superblock that is written again, for the proofs of the crates above.
ghost use Rattle.std.specs.Prelude.{[], ℕ, List};
ghost use Rattle.disk_model.specs.Disk.{Image, Told};
ghost use Rattle.batch_write.specs.Batch.{AtBlock, HasBatch, IsOldOrNew, IsTried, LeavesOnly, NoSuper};

/// A batch whose superblock was tried is whole on each image, and stays so while that superblock is written again: what
/// is said of the second call alone is so of the batch, and after Ok each image has the batch and its superblock.
pub fn tried_again()
    ensures either { (old mid : Told) (batch : List AtBlock) (superblock : List ℕ) (image : Image) → NoSuper batch → LeavesOnly mid (IsTried old batch superblock) → IsOldOrNew mid [] superblock image → IsTried old batch superblock image }
    ensures new { (old mid : Told) (batch : List AtBlock) (superblock : List ℕ) (image : Image) → NoSuper batch → LeavesOnly mid (IsTried old batch superblock) → HasBatch mid [] superblock image → HasBatch old batch superblock image }
{}
