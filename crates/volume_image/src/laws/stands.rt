ghost use Rattle.std.specs.Prelude.{◌≡◌, ◌≤◌, ◌+◌, ℕ, List, length, All};
ghost use Rattle.blk_base.specs.Address.{IsAllowed};
ghost use Rattle.flat_model.specs.Volume.{Volume};
ghost use Rattle.volume_image.specs.Tree.{Image, NoneTwice};
ghost use Rattle.volume_image.specs.Stands.{AgreesOn, Stands, StandsBy};

/// An image stands for a volume by the superblock and the blocks of its reach alone (own).
pub fn stands_is_local()
    ensures { (one two : Image) (volume : Volume) (reach : List ℕ) → StandsBy one volume reach → AgreesOn reach one two → StandsBy two volume reach }
{}

/// An image stands for at most one volume (own).
pub fn stands_for_one_volume()
    ensures { (image : Image) (one two : Volume) → Stands image one → Stands image two → one ≡ two }
{}

/// It stands by one reach: the same addresses in the same order (own).
pub fn stands_by_one_reach()
    ensures { (image : Image) (one two : Volume) (near far : List ℕ) → StandsBy image one near → StandsBy image two far → near ≡ far }
{}

/// No address of the reach stands twice in it, each is one at which the volume may have a block, and beside them 82
/// blocks that are kept back and 116 that a mount needs are there (own).
pub fn reach_is_sound()
    ensures none_twice { (image : Image) (volume : Volume) (reach : List ℕ) → StandsBy image volume reach → NoneTwice reach }
    ensures allowed { (image : Image) (volume : Volume) (reach : List ℕ) (stands : StandsBy image volume reach)
        → All (IsAllowed stands.super.blocks) reach }
    ensures room { (image : Image) (volume : Volume) (reach : List ℕ) (stands : StandsBy image volume reach)
        → length reach + 198 ≤ stands.super.blocks }
{}
