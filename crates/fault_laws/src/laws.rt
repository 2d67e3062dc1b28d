ghost use Rattle.std.specs.Prelude.{◌≡◌, ◌≢◌, ◌↔◌, ℕ, List, None, Err, Result, Contains};
ghost use Rattle.blk_base.specs.declared.key.Want.{Want};
ghost use Rattle.blk_base.specs.Bytes.{Image};
ghost use Rattle.blk_base.specs.Leaf.{Item};
ghost use Rattle.block_table.specs.Table.{Table};
ghost use Rattle.image_faults.specs.Lowest.{first_faulty};
ghost use Rattle.image_order.specs.FirstFault.{as_item_fault, data_after, first_item_fault, incoherent};
ghost use Rattle.tree_check.specs.declared.fault.TreeFault.{TreeFault};
ghost use Rattle.tree_check.specs.Blocks.{blocks_checked};
ghost use Rattle.tree_check.specs.Items.{AreBytes, items_answer};
ghost use Rattle.tree_load.specs.Loaded.{HasBytes, tree_wanted};
ghost use Rattle.tree_range.specs.Shape.{IsTree, tree_items, tree_reach};
ghost use Rattle.volume_image.specs.Stands.{data_of};
ghost use Rattle.volume_image.specs.Subvolume.{Data, data_addresses};
ghost use Rattle.volume_image.specs.Tree.{IsTree as IsTreeOn};
ghost use Rattle.coherent.specs.Answer.{IsCoherentAnswer};
ghost use Rattle.fault_laws.specs.Told.{fault_of_data, image_fault};

/// Law: the check of a tree's items names the fault that the order of an image's faults has first among them, with the
/// leaf that has the item, where the image has the tree and the table has its blocks (own).
pub fn an_item_fault_is_the_first()
    ensures { (image : Image) (blocks id : ℕ) (want : Want) (table : Table)
        → IsTreeOn image blocks want (tree_items table (tree_wanted want)) (tree_reach table (tree_wanted want))
        → HasBytes image table (tree_reach table (tree_wanted want))
        → IsTree table (tree_wanted want) → AreBytes (tree_items table (tree_wanted want))
        → image_fault id (items_answer table (tree_wanted want)) ≡ as_item_fault image want (first_item_fault None (tree_items table (tree_wanted want))) }
{}

/// Law: the check of data blocks names the address that the order of an image's faults does, and whether it is outside or
/// was reached before, where the same addresses were (own).
pub fn a_data_fault_is_the_first()
    ensures { (id blocks : ℕ) (reached before addresses : List ℕ) → ((at : ℕ) → (Contains reached at ↔ Contains before at))
        → image_fault id (blocks_checked blocks reached addresses) ≡ fault_of_data (data_after blocks addresses before) }
{}

/// Law: the check of coherence names the inode that the order of an image's faults does, unless there is no memory, where
/// the table has the image's data blocks (own).
pub fn an_incoherent_inode_is_the_first()
    ensures { (id : ℕ) (image : Image) (items : List Item) (blocks : Data) (answer : Result (Unit {0}) TreeFault)
        → ((at : ℕ) → Contains (data_addresses items) at → blocks at ≡ data_of image at) → IsCoherentAnswer items blocks answer
        → answer ≢ Err TreeFault.OutOfMemory
        → image_fault id answer ≡ incoherent id (first_faulty items (data_of image)) }
{}
