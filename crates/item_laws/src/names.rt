ghost use Rattle.std.specs.Prelude.{◌≡◌, ◌≢◌, ◌↔◌, ◌<◌, ◌^◌, ℕ, List, [], ◌∷◌, Ok};
ghost use Rattle.std.specs.List.{AllByRecursion, flat_map};
ghost use Rattle.blk_base.specs.declared.key.Key.{Key};
ghost use Rattle.blk_base.specs.Bytes.{IsBytes};
ghost use Rattle.blk_base.specs.Entries.{ExtRefValue, IsExtRefs, IsRefName, IsRefs, RefValue, extref_bytes, extrefs_of, ref_bytes, refs_of};
ghost use Rattle.blk_base.specs.Name.{IsName};

/// Names are read from an item exactly where they are what its bytes spell.
pub fn refs_are_spelled()
    ensures { (key : Key) (bytes : List ℕ) (refs : List RefValue) → IsBytes bytes → ((refs_of key bytes ≡ Ok refs) ↔ IsRefs key bytes refs) }
{}

/// Names that were written one behind the other are read back.
pub fn refs_read_back()
    ensures { (key : Key) (refs : List RefValue) → refs ≢ [] → AllByRecursion (λ r. r.index < 2 ^ 64) refs → AllByRecursion (λ r. IsRefName key r.name) refs → refs_of key (flat_map ref_bytes refs) ≡ Ok refs }
{}

/// One name that was written is read back.
pub fn ref_reads_back()
    ensures { (key : Key) (r : RefValue) → r.index < 2 ^ 64 → IsRefName key r.name → refs_of key (ref_bytes r) ≡ Ok (r ∷ []) }
{}

/// Far names are read from an item exactly where they are what its bytes spell.
pub fn extrefs_are_spelled()
    ensures { (bytes : List ℕ) (refs : List ExtRefValue) → IsBytes bytes → ((extrefs_of bytes ≡ Ok refs) ↔ IsExtRefs bytes refs) }
{}

/// Far names that were written one behind the other are read back.
pub fn extrefs_read_back()
    ensures { (refs : List ExtRefValue) → refs ≢ [] → AllByRecursion (λ r. (r.parent < 2 ^ 64) × (r.index < 2 ^ 64)) refs → AllByRecursion (λ r. IsName r.name) refs → extrefs_of (flat_map extref_bytes refs) ≡ Ok refs }
{}

/// One far name that was written is read back.
pub fn extref_reads_back()
    ensures { (r : ExtRefValue) → r.parent < 2 ^ 64 → r.index < 2 ^ 64 → IsName r.name → extrefs_of (extref_bytes r) ≡ Ok (r ∷ []) }
{}
