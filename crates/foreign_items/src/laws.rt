//! Laws of a subvolume's items: the functions here have no parameters and no body.
ghost use Rattle.std.specs.Prelude.{◌≡◌, ◌↔◌, ℕ, List, Ok};
ghost use Rattle.foreign_tree.specs.Tree.{VolumeValue};
ghost use Rattle.foreign_volume.specs.declared.roots.Subvolume.{Subvolume};
ghost use Rattle.foreign_items.specs.Rows.{AreItems, ItemsValue, items_of};

/// There are rows exactly where the subvolume has a tree, and they are those of its items.
pub fn items_are_read()
    ensures { (disk : List ℕ) (volume : VolumeValue) (sub : Subvolume) (rows : ItemsValue) → (items_of disk volume sub ≡ Ok rows) ↔ AreItems disk volume sub rows }
{}
