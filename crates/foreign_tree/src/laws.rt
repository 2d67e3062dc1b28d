//! Laws of foreign trees: the functions here have no parameters and no body.
ghost use Rattle.std.specs.Prelude.{◌≡◌, ◌↔◌, ℕ, List, Ok};
ghost use Rattle.foreign_tree.specs.declared.volume.Wanted.{Wanted};
ghost use Rattle.foreign_tree.specs.Tree.{Found, IsTree, VolumeValue, Walked, tree_of};

/// A walk is Ok exactly where the root has a tree, and it has met the tree's items and reach.
pub fn tree_is_walked()
    ensures { (volume : VolumeValue) (disk : List ℕ) (root : Wanted) (walked : Walked)
        → (tree_of volume disk root ≡ Ok walked) ↔ IsTree volume disk root walked.items walked.reached }
{}

/// A root has one list of items and one reach.
pub fn tree_is_one()
    ensures { (volume : VolumeValue) (disk : List ℕ) (root : Wanted) (one two : List Found) (near far : List ℕ)
        → IsTree volume disk root one near → IsTree volume disk root two far → (one ≡ two) × (near ≡ far) }
{}
