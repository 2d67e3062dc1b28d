//! A change of a subvolume, item by item: the functions here have no parameters and no body.

ghost use Rattle.std.specs.Prelude.{◌≡◌, ◌≢◌, ◌∷◌, ◌++◌, [], ℕ, List, Contains, Some, false, true};
ghost use Rattle.std.specs.FinMap.{get, remove};
ghost use Rattle.blk_base.specs.declared.key.Key.{Key};
ghost use Rattle.blk_base.specs.Keys.{extent_data};
ghost use Rattle.blk_base.specs.Leaf.{Item};
ghost use Rattle.blk_base.specs.Trees.{ItemsRise};
ghost use Rattle.flat_model.specs.Names.{FlatName, add_name, remove_name};
ghost use Rattle.flat_model.specs.Operations.{with_record};
ghost use Rattle.flat_model.specs.Records.{InodeRecord};
ghost use Rattle.flat_model.specs.Volume.{Subvolume};
ghost use Rattle.tree_range.specs.Between.{data_under};
ghost use Rattle.volume_image.specs.Subvolume.{AreItemsOf, Data, entry_kind_of, item_addresses};
ghost use Rattle.table_volume.specs.Keyed.{ChangesOnly, HoldsExtents, HoldsKey, is_touched};

/// Rising items are those of a subvolume exactly where under each key stands what it asks for, and the extents of each
/// inode cover its blocks, each once.
pub fn items_are_by_keys()
    ensures parts { (items : List Item) (blocks : Data) (sub : Subvolume) → ItemsRise items → AreItemsOf items blocks sub
        → (key : Key) → HoldsKey sub blocks key (data_under key items) }
    ensures extents { (items : List Item) (blocks : Data) (sub : Subvolume) → AreItemsOf items blocks sub → (ino : ℕ) → HoldsExtents sub items ino }
    ensures whole { (items : List Item) (blocks : Data) (sub : Subvolume) → ItemsRise items → ((key : Key) → HoldsKey sub blocks key (data_under key items))
        → ((ino : ℕ) → HoldsExtents sub items ino) → AreItemsOf items blocks sub }
{}

/// Where some names and the records of some inodes change alone, only the items that tell of them have to: an item that
/// tells of none of them is still what is asked for, where it and its data stay.
pub fn a_change_touches_few_items()
    ensures { (before after : List Item) (was is : Data) (old new : Subvolume) (names : List FlatName) (inos : List ℕ)
        → ItemsRise before → ItemsRise after → AreItemsOf before was old → ChangesOnly old new names inos
        → ((key : Key) → is_touched names inos key ≡ false → data_under key after ≡ data_under key before)
        → ((key : Key) (bytes : List ℕ) → is_touched names inos key ≡ false → key.kind ≡ extent_data → Contains before (key, bytes)
        → (at : ℕ) → Contains (item_addresses (key, bytes)) at → was at ≡ is at)
        → ((key : Key) → is_touched names inos key ≡ true → HoldsKey new is key (data_under key after))
        → ((ino : ℕ) → Contains inos ino → HoldsExtents new after ino)
        → AreItemsOf after is new }
{}

/// A name that is added or goes is all that changes.
pub fn a_name_changes_only()
    ensures added { (sub : Subvolume) (name : FlatName) → ChangesOnly sub (record sub { names = add_name name sub.names }) (name ∷ []) [] }
    ensures removed { (sub : Subvolume) (name : FlatName) → ChangesOnly sub (record sub { names = remove_name name sub.names }) (name ∷ []) [] }
{}

/// The record of an inode is all that changes, where a name that leads to it finds the kind that it had; and so it is
/// where an inode goes to which no name leads.
pub fn an_inode_changes_only()
    ensures written { (sub : Subvolume) (ino : ℕ) (inode : InodeRecord)
        → ((name : FlatName) → Contains sub.names name → name.ino ≡ ino → entry_kind_of (Some inode) ≡ entry_kind_of (get sub.inodes ino))
        → ChangesOnly sub (with_record sub ino inode) [] (ino ∷ []) }
    ensures removed { (sub : Subvolume) (ino : ℕ) → ((name : FlatName) → Contains sub.names name → name.ino ≢ ino)
        → ChangesOnly sub (record sub { inodes = remove sub.inodes ino }) [] (ino ∷ []) }
{}

/// One change behind another changes what either changes.
pub fn changes_join()
    ensures { (first middle last : Subvolume) (names more_names : List FlatName) (inos more_inos : List ℕ)
        → ChangesOnly first middle names inos → ChangesOnly middle last more_names more_inos → ChangesOnly first last (names ++ more_names) (inos ++ more_inos) }
{}
