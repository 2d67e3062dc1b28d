//! What a tree gives by the bytes of the table: the functions here have no parameters and no body.

ghost use Rattle.std.specs.Prelude.{◌≡◌, ◌/◌, ℕ, List, length, All, Contains, Some, slice_get};
ghost use Rattle.blk_base.specs.Items.{RootValue};
ghost use Rattle.blk_base.specs.Superblock.{SuperValue};
ghost use Rattle.flat_model.specs.Coherent.{IsCoherent};
ghost use Rattle.flat_model.specs.Volume.{Subvolume};
ghost use Rattle.block_table.specs.declared.tree.Tree.{Tree};
ghost use Rattle.block_table.specs.Table.{Table};
ghost use Rattle.block_table.specs.TreeIn.{IsTaken, block_at};
ghost use Rattle.tree_range.specs.Shape.{IsTree, tree_items, tree_reach};
ghost use Rattle.tree_frame.specs.Frame.{AreReadable};
ghost use Rattle.volume_image.specs.Stands.{IsSubvolumeAt, sub_want};
ghost use Rattle.volume_image.specs.Tree.{Image, IsTree as IsTreeOn};
ghost use Rattle.volume_image.specs.Worked.{worked_items, worked_subvolume};
ghost use Rattle.table_volume.specs.Gives.{GivesSubvolume, sub_reach, tree_data};

/// A tree gives at most one coherent subvolume.
pub fn a_tree_gives_one_subvolume()
    ensures { (table : Table) (tree : Tree) (one two : Subvolume)
        → GivesSubvolume table tree one → GivesSubvolume table tree two → IsCoherent one → IsCoherent two → one ≡ two }
{}

/// Each block of a subvolume, of its tree and of its files, is taken, at an address that a volume may use.
pub fn a_subvolume_is_taken()
    ensures { (table : Table) (tree : Tree) (sub : Subvolume) → GivesSubvolume table tree sub → All (IsTaken table) (sub_reach table tree) }
{}

/// What a tree gives depends on the bytes of its blocks and of its files' alone, where each is there to be read, be it
/// let go or not.
pub fn giving_is_by_bytes()
    ensures gives { (old new : Table) (tree : Tree) (sub : Subvolume)
        → AreReadable old new (sub_reach old tree) → GivesSubvolume old tree sub → GivesSubvolume new tree sub }
    ensures reach { (old new : Table) (tree : Tree) → AreReadable old new (sub_reach old tree) → sub_reach new tree ≡ sub_reach old tree }
{}

/// A worked value: a tree with the items of a subvolume that has the directory /d, the file /d/f of one block, which is
/// also /d/g, and the symlink /d/l gives that subvolume, where its block stands at byte address 81920.
pub fn a_worked_subvolume_is_given()
    ensures { (table : Table) (tree : Tree) (block : List ℕ) → IsTree table tree → tree_items table tree ≡ worked_items
        → IsTaken table 81920 → (block_at table 81920).bytes ≡ block → (Contains (tree_reach table tree) 81920 → ⊥)
        → GivesSubvolume table tree (worked_subvolume block) }
{}

/// Where what is read of blocks stays over one change of the table and over another, it stays over both.
pub fn readings_join()
    ensures { (old middle new : Table) (reach : List ℕ) → AreReadable old middle reach → AreReadable middle new reach → AreReadable old new reach }
{}

/// An image that has a tree's blocks, with its items, and its files' blocks with their bytes has the subvolume that the
/// tree gives, by the same blocks ("ROOT_ITEM").
pub fn a_subvolume_is_on_an_image()
    ensures { (table : Table) (tree : Tree) (sub : Subvolume) (image : Image) (super : SuperValue) (id : ℕ) (root : RootValue)
        → GivesSubvolume table tree sub → super.blocks ≡ length table.slots
        → IsTreeOn image super.blocks (sub_want super id root) (tree_items table tree) (tree_reach table tree)
        → All (λ at. slice_get image (at / 4096) ≡ Some (block_at table at).bytes) (tree_data table tree)
        → IsSubvolumeAt image super id root sub (sub_reach table tree) }
{}
