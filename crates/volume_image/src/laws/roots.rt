ghost use Rattle.std.specs.Prelude.{◌≡◌, ◌≤◌, ◌<◌, ◌+◌, ◌^◌, ◌↔◌, ℕ, List, length, Ok};
ghost use Rattle.std.specs.FinMap.{entries};
ghost use Rattle.blk_base.specs.Items.{RootValue};
ghost use Rattle.blk_base.specs.Leaf.{Item};
ghost use Rattle.blk_base.specs.Superblock.{SuperValue};
ghost use Rattle.flat_model.specs.Volume.{Volume, subvolume_ids};
ghost use Rattle.volume_image.specs.Roots.{AreLogRootItems, AreRootItems, LogRoot, log_root_want, log_roots_of, log_want, next_generation, root_want, roots_of, sub_want};
ghost use Rattle.volume_image.specs.Stands.{Stands};
ghost use Rattle.volume_image.specs.Tree.{Image};

use blk_base::limits::MOST_SUBS;

/// The items of a root tree are read exactly where they are the root items of 1 to 16 subvolumes, in the order of their
/// ids and without a gap ("ROOT_ITEM" of the on-disk format; own for the ids).
pub fn roots_are_read()
    ensures { (items : List Item) (roots : List RootValue)
        → (roots_of items ≡ Ok roots) ↔ ((1 ≤ length roots) × (length roots ≤ MOST_SUBS) × AreRootItems items (subvolume_ids (length roots)) roots) }
{}

/// The items of a log root tree are read exactly where they are root items of some of the subvolumes ("ROOT_ITEM" of the
/// on-disk format).
pub fn log_roots_are_read()
    ensures { (ids : List ℕ) (items : List Item) (logs : List LogRoot) → (log_roots_of ids items ≡ Ok logs) ↔ AreLogRootItems ids items logs }
{}

/// An image stands for a volume of 1 to 16 subvolumes alone; one with 17 stands for none (own).
pub fn subvolumes_are_few()
    ensures least { (image : Image) (volume : Volume) → Stands image volume → 1 ≤ length (entries volume) }
    ensures most { (image : Image) (volume : Volume) → Stands image volume → length (entries volume) ≤ MOST_SUBS }
{}

/// The root tree is read with the superblock's generation and owner 1, a subvolume's tree with its root item's
/// generation and its id as owner ("Header" and "ROOT_ITEM" of the on-disk format).
pub fn roots_are_wanted()
    ensures root { (super : SuperValue) → root_want super
        ≡ record { fsid = super.fsid; at = record { 0 = super.root }; generation = super.generation; owner = 1; level = super.root_level } }
    ensures subvolume { (super : SuperValue) (id : ℕ) (root : RootValue) → sub_want super id root
        ≡ record { fsid = super.fsid; at = record { 0 = root.at }; generation = root.generation; owner = id; level = root.level } }
{}

/// The log root tree is read with the generation behind the superblock's, a log with its root item's, both with the
/// owner of logs, 2^64 - 6 ("Header" and "ROOT_ITEM" of the on-disk format).
pub fn logs_are_wanted()
    ensures root { (super : SuperValue) → log_root_want super
        ≡ record { fsid = super.fsid; at = record { 0 = super.log_root }; generation = next_generation super.generation; owner = 0xFFFF_FFFF_FFFF_FFFA; level = super.log_root_level } }
    ensures log { (super : SuperValue) (root : RootValue) → log_want super root
        ≡ record { fsid = super.fsid; at = record { 0 = root.at }; generation = root.generation; owner = 0xFFFF_FFFF_FFFF_FFFA; level = root.level } }
{}

/// Generations rise by one, and begin again at 0 behind 2^64 - 1 (own).
pub fn generations_go_round()
    ensures more { (generation : ℕ) → generation + 1 < 2 ^ 64 → next_generation generation ≡ generation + 1 }
    ensures last { next_generation 0xFFFF_FFFF_FFFF_FFFF ≡ 0 }
{}
