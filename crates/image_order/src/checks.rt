ghost use Rattle.std.specs.Prelude.{◌≡◌, ◌↔◌, ◌++◌, ℕ, List, None, Ok, All, Contains};
ghost use Rattle.blk_base.specs.declared.key.Want.{Want};
ghost use Rattle.blk_base.specs.Address.{IsAllowed};
ghost use Rattle.blk_base.specs.Leaf.{Item};
ghost use Rattle.volume_image.specs.Tree.{Image, IsTree, ItemsRise, NoneTwice};
ghost use Rattle.image_order.specs.FirstFault.{data_after, first_item_fault, leaf_with};
ghost use Rattle.image_order.specs.InLeaf.{AreApartExtents, AreFaultless, IsInLeafAt};

/// Law: rising items have no first fault exactly where none has a fault of its own and no extent begins below the end of
/// another of its file ("EXTENT_DATA" of the on-disk format; own for the order).
pub fn items_are_checked()
    ensures { (items : List Item) → ItemsRise items → ((first_item_fault None items ≡ None) ↔ (AreFaultless items × AreApartExtents items)) }
{}

/// Law: data blocks behind addresses that were reached once each pass exactly where the volume may have a block at each
/// of their addresses, and none is reached twice; they are then reached behind those (own).
pub fn data_are_checked()
    ensures { (blocks : ℕ) (addresses before : List ℕ) → NoneTwice before
        → ((data_after blocks addresses before ≡ Ok (before ++ addresses)) ↔ (All (IsAllowed blocks) addresses × NoneTwice (before ++ addresses))) }
{}

/// Law: the byte address that is named with an item is that of a leaf of its tree that has it (own).
pub fn items_stand_in_named_leaves()
    ensures { (image : Image) (blocks : ℕ) (want : Want) (items : List Item) (reach : List ℕ) (item : Item) → IsTree image blocks want items reach → Contains items item
        → IsInLeafAt image reach item (leaf_with image want item.0) }
{}
