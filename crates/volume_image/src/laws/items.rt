ghost use Rattle.std.specs.Prelude.{◌≡◌, ◌≢◌, ◌≤◌, ℕ, List, length, Contains, IsTrue, Some};
ghost use Rattle.std.specs.FinMap.{get};
ghost use Rattle.blk_base.specs.declared.key.Key.{Key};
ghost use Rattle.blk_base.specs.Keys.{dir_item, extent_data, inode_extref, inode_ref, xattr_item};
ghost use Rattle.blk_base.specs.ItemFaults.{HasItsKey, IsSpelled, is_subvolume_kind};
ghost use Rattle.blk_base.specs.Leaf.{Item};
ghost use Rattle.flat_model.specs.Coherent.{IsCoherent};
ghost use Rattle.flat_model.specs.Lengths.{dir_item_length, extref_item_length, link_extent_length, most_item_bytes, ref_item_length, xattr_item_length};
ghost use Rattle.flat_model.specs.Records.{FileInode, FileRecord, InodeRecord, LinkInode, LinkRecord, attributes_of};
ghost use Rattle.flat_model.specs.Volume.{Subvolume};
ghost use Rattle.volume_image.specs.Subvolume.{AreItemsOf, CoversBlock, Data, data_addresses, make_key};
ghost use Rattle.volume_image.specs.Worked.{worked_items, worked_subvolume};

/// Items with their data blocks are those of one coherent subvolume at most (own).
pub fn items_have_one_subvolume()
    ensures { (items : List Item) (blocks : Data) (one two : Subvolume)
        → AreItemsOf items blocks one → AreItemsOf items blocks two → IsCoherent one → IsCoherent two → one ≡ two }
{}

/// Of the data blocks only those count to which the items lead (own).
pub fn items_are_local()
    ensures { (one two : Data) (items : List Item) (sub : Subvolume)
        → AreItemsOf items one sub → ((at : ℕ) → Contains (data_addresses items) at → one at ≡ two at) → AreItemsOf items two sub }
{}

/// The items that names, attributes and targets ask for have the lengths that flat volumes count with, in bytes
/// ("INODE_REF", "INODE_EXTREF", "DIR_ITEM", "XATTR_ITEM" and "EXTENT_DATA" of the on-disk format).
pub fn items_have_lengths()
    ensures refs { (sub : Subvolume) (blocks : Data) (items : List Item) → AreItemsOf items blocks sub
        → (ino dir : ℕ) (bytes : List ℕ) → ino ≢ 256 → Contains items (make_key ino inode_ref dir, bytes) → length bytes ≡ ref_item_length sub.names ino dir }
    ensures extrefs { (sub : Subvolume) (blocks : Data) (items : List Item) → AreItemsOf items blocks sub
        → (ino hash : ℕ) (bytes : List ℕ) → Contains items (make_key ino inode_extref hash, bytes) → length bytes ≡ extref_item_length sub.names ino hash }
    ensures entries { (sub : Subvolume) (blocks : Data) (items : List Item) → AreItemsOf items blocks sub
        → (dir hash : ℕ) (bytes : List ℕ) → Contains items (make_key dir dir_item hash, bytes) → length bytes ≡ dir_item_length sub.names dir hash }
    ensures attributes { (sub : Subvolume) (blocks : Data) (items : List Item) → AreItemsOf items blocks sub
        → (ino hash : ℕ) (inode : InodeRecord) (bytes : List ℕ) → get sub.inodes ino ≡ Some inode
        → Contains items (make_key ino xattr_item hash, bytes) → length bytes ≡ xattr_item_length (attributes_of inode) hash }
    ensures targets { (sub : Subvolume) (blocks : Data) (items : List Item) → AreItemsOf items blocks sub
        → (ino offset : ℕ) (link : LinkRecord) (bytes : List ℕ) → get sub.inodes ino ≡ Some (LinkInode link)
        → Contains items (make_key ino extent_data offset, bytes) → length bytes ≡ link_extent_length link }
{}

/// The root directory's one item of names has 12 bytes, and no item of a coherent subvolume has more than a leaf
/// holds ("INODE_REF" and "Leaf Node" of the on-disk format).
pub fn items_fit_leaves()
    ensures own_name { (sub : Subvolume) (blocks : Data) (items : List Item) → AreItemsOf items blocks sub → IsCoherent sub
        → (dir : ℕ) (bytes : List ℕ) → Contains items (make_key 256 inode_ref dir, bytes) → (dir ≡ 256) × (length bytes ≡ 12) }
    ensures all { (sub : Subvolume) (blocks : Data) (items : List Item) → AreItemsOf items blocks sub → IsCoherent sub
        → (key : Key) (bytes : List ℕ) → Contains items (key, bytes) → length bytes ≤ most_item_bytes }
{}

/// Each item of a subvolume has a type that the items of a subvolume have, is spelled by the grammar of that type, so
/// that it has no fault, and has the key that the format gives for its content ("Key" and the items of the on-disk
/// format).
pub fn items_have_their_keys()
    ensures kind { (sub : Subvolume) (blocks : Data) (items : List Item) → AreItemsOf items blocks sub
        → (key : Key) (bytes : List ℕ) → Contains items (key, bytes) → IsTrue (is_subvolume_kind key.kind) }
    ensures spelled { (sub : Subvolume) (blocks : Data) (items : List Item) → AreItemsOf items blocks sub
        → (key : Key) (bytes : List ℕ) → Contains items (key, bytes) → IsSpelled key bytes }
    ensures key { (sub : Subvolume) (blocks : Data) (items : List Item) → AreItemsOf items blocks sub
        → (key : Key) (bytes : List ℕ) → Contains items (key, bytes) → HasItsKey key bytes }
{}

/// Each block of a file that is no hole is in exactly one extent ("EXTENT_DATA" of the on-disk format).
pub fn blocks_have_one_extent()
    ensures one { (sub : Subvolume) (blocks : Data) (items : List Item) → AreItemsOf items blocks sub
        → (ino number : ℕ) (one two : CoversBlock items ino number) → one.offset ≡ two.offset }
    ensures some { (sub : Subvolume) (blocks : Data) (items : List Item) → AreItemsOf items blocks sub
        → (ino : ℕ) (file : FileRecord) (number : ℕ) (block : List ℕ) → get sub.inodes ino ≡ Some (FileInode file)
        → get file.blocks number ≡ Some block → CoversBlock items ino number }
    ensures kept { (sub : Subvolume) (blocks : Data) (items : List Item) → AreItemsOf items blocks sub
        → (ino : ℕ) (file : FileRecord) (number : ℕ) → get sub.inodes ino ≡ Some (FileInode file)
        → CoversBlock items ino number → (block : List ℕ) × (get file.blocks number ≡ Some block) }
{}

/// A worked value: the items of a subvolume with the directory /d, the file /d/f of 5 bytes with an attribute and the
/// further, far name /d/g, and the symlink /d/l ("Items" of the on-disk format).
pub fn worked_items_are()
    ensures { (block : List ℕ) (blocks : Data) → blocks 81920 ≡ Some block → AreItemsOf worked_items blocks (worked_subvolume block) }
{}
