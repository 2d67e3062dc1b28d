ghost use Rattle.std.specs.Prelude.{◌≡◌, ◌↔◌, ◌≤◌, ◌*◌, ◌^◌, ◌++◌, ◌∷◌, ℕ, suc, List, [], length, All, Some, Ok};
ghost use Rattle.blk_base.specs.declared.key.Want.{Want};
ghost use Rattle.blk_base.specs.Address.{IsAllowed};
ghost use Rattle.blk_base.specs.Leaf.{IsLeaf, IsNode, Item, Pointer};
ghost use Rattle.volume_image.specs.Tree.{HasWalked, Image, IsTree, ItemsRise, NoneTwice, Walked, block_of, first_key, tree_of};

/// A root has one list of items and one reach ("Internal Node" and "Leaf Node" of the on-disk format).
pub fn tree_is_one()
    ensures { (image : Image) (blocks : ℕ) (want : Want) (one two : List Item) (near far : List ℕ)
        → IsTree image blocks want one near → IsTree image blocks want two far → (one ≡ two) × (near ≡ far) }
{}

/// A tree is one by the blocks of its reach alone: it stands in each image that has the same blocks there (own).
pub fn tree_is_local()
    ensures { (one two : Image) (blocks : ℕ) (want : Want) (items : List Item) (reach : List ℕ)
        → IsTree one blocks want items reach → All (λ at. block_of one at ≡ block_of two at) reach → IsTree two blocks want items reach }
{}

/// A tree reaches no byte address twice, and each is one at which the volume may have a block (own).
pub fn tree_reach_is_sound()
    ensures none_twice { (image : Image) (blocks : ℕ) (want : Want) (items : List Item) (reach : List ℕ)
        → IsTree image blocks want items reach → NoneTwice reach }
    ensures allowed { (image : Image) (blocks : ℕ) (want : Want) (items : List Item) (reach : List ℕ)
        → IsTree image blocks want items reach → All (IsAllowed blocks) reach }
{}

/// A walk is Ok exactly where the root has a tree, and it has met the tree's items and reach (own).
pub fn tree_is_walked()
    ensures { (image : Image) (blocks : ℕ) (want : Want) (walked : Walked)
        → (tree_of image blocks want [] ≡ Ok walked) ↔ IsTree image blocks want walked.items walked.reached }
{}

/// A walk after other walks is Ok exactly where the root has a tree that reaches none of the addresses reached before;
/// its reach then stands behind them (own).
pub fn tree_is_walked_after()
    ensures { (image : Image) (blocks : ℕ) (want : Want) (before : List ℕ) (walked : Walked)
        → (tree_of image blocks want before ≡ Ok walked) ↔ HasWalked image blocks want before walked }
{}

/// A tree whose root is a node has at least twice 30 to the power of the root's level less 1 items (own).
pub fn tall_tree_is_wide()
    ensures { (image : Image) (blocks : ℕ) (want : Want) (items : List Item) (reach : List ℕ) → IsTree image blocks want items reach
        → (level : ℕ) → want.level ≡ suc level → 2 * 30 ^ level ≤ length items }
{}

/// A node over two leaves, each with its pointer's address, generation and first key and with the node's owner, is a
/// tree of both leaves' items ("Internal Node" of the on-disk format).
pub fn two_leaves_are_a_tree()
    ensures { (image : Image) (blocks : ℕ) (want : Want) (one two : Pointer) (first second : List Item) → want.level ≡ 1
        → IsAllowed blocks want.at.0 → IsAllowed blocks one.at → IsAllowed blocks two.at
        → IsNode want (block_of image want.at.0) (one ∷ two ∷ [])
        → IsLeaf (record { fsid = want.fsid; at = record { 0 = one.at }; generation = one.generation; owner = want.owner; level = 0 }) (block_of image one.at) first
        → first_key first ≡ Some one.key
        → IsLeaf (record { fsid = want.fsid; at = record { 0 = two.at }; generation = two.generation; owner = want.owner; level = 0 }) (block_of image two.at) second
        → first_key second ≡ Some two.key
        → ItemsRise (first ++ second) → NoneTwice (want.at.0 ∷ one.at ∷ two.at ∷ [])
        → IsTree image blocks want (first ++ second) (want.at.0 ∷ one.at ∷ two.at ∷ []) }
{}
