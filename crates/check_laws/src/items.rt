ghost use Rattle.std.specs.Prelude.{◌≡◌, ◌↔◌, None, Ok};
ghost use Rattle.block_table.specs.declared.tree.Tree.{Tree};
ghost use Rattle.block_table.specs.Table.{Table};
ghost use Rattle.tree_range.specs.Shape.{IsTree, tree_items};
ghost use Rattle.tree_check.specs.Items.{AreBytes, items_answer};
ghost use Rattle.image_faults.specs.Faulty.{AreReadable};
ghost use Rattle.image_order.specs.FirstFault.{first_item_fault};

/// Law: where the check of a tree's items is Ok, they can be read: their keys rise, none has a fault of its own, and no two
/// extents of a file cover one byte. So no inode is faulty exactly where they are those of a coherent subvolume, once their
/// data blocks are there (own).
pub fn checked_items_are_readable()
    ensures { (table : Table) (tree : Tree) → IsTree table tree → AreBytes (tree_items table tree) → items_answer table tree ≡ Ok tt
        → AreReadable (tree_items table tree) }
{}

/// Law: the check of a tree's items is Ok exactly where the order of an image's faults finds none among them (own).
pub fn checks_find_what_the_order_does()
    ensures { (table : Table) (tree : Tree) → IsTree table tree → AreBytes (tree_items table tree)
        → ((items_answer table tree ≡ Ok tt) ↔ (first_item_fault None (tree_items table tree) ≡ None)) }
{}
