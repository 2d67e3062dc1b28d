ghost use Rattle.std.specs.Prelude.{◌≡◌, ◌↔◌, ℕ, List, Some, None, true};
ghost use Rattle.blk_base.specs.Leaf.{Item};
ghost use Rattle.flat_model.specs.Coherent.{IsCoherent};
ghost use Rattle.flat_model.specs.Volume.{Subvolume};
ghost use Rattle.volume_image.specs.Subvolume.{AreItemsOf, Data};
ghost use Rattle.volume_image.specs.Tree.{ItemsRise};
ghost use Rattle.image_faults.specs.Faulty.{AreReadable, HasData, HasNoFault, IsFaulty};
ghost use Rattle.image_faults.specs.Lowest.{IsFirstFaulty, first_faulty, is_faulty};
ghost use Rattle.image_faults.specs.Said.{said_sub};

/// Law: of readable items whose data blocks are all there no inode is faulty exactly where they are the items of a
/// coherent subvolume. That subvolume is then the one that the items say (own).
pub fn faultless_items_are_coherent()
    ensures law { (items : List Item) (blocks : Data) → AreReadable items → HasData items blocks
        → (((ino : ℕ) → HasNoFault items blocks ino) ↔ ((sub : Subvolume) × AreItemsOf items blocks sub × IsCoherent sub)) }
    ensures said { (items : List Item) (blocks : Data) (sub : Subvolume) → ItemsRise items → AreItemsOf items blocks sub → IsCoherent sub → said_sub items blocks ≡ sub }
    ensures no_fault { (items : List Item) (blocks : Data) (sub : Subvolume) → ItemsRise items → AreItemsOf items blocks sub → IsCoherent sub
        → (ino : ℕ) → HasNoFault items blocks ino }
{}

/// Law: the inode that is named first is faulty and no lower one is, and none is named exactly where none is faulty,
/// whatever the items are (own).
pub fn first_faulty_is_lowest()
    ensures told { (items : List Item) (blocks : Data) (ino : ℕ) → ((is_faulty items blocks ino ≡ true) ↔ IsFaulty items blocks ino) }
    ensures some { (items : List Item) (blocks : Data) (ino : ℕ) → ((first_faulty items blocks ≡ Some ino) ↔ IsFirstFaulty items blocks ino) }
    ensures none { (items : List Item) (blocks : Data) → ((first_faulty items blocks ≡ None) ↔ ((ino : ℕ) → HasNoFault items blocks ino)) }
{}
