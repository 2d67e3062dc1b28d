ghost use Rattle.std.specs.Prelude.{◌≡◌, ◌∷◌, [], true, false, map};
ghost use Rattle.flat_model.specs.Lengths.{ref_item_length};
ghost use Rattle.flat_model.specs.Names.{FlatName};
ghost use Rattle.flat_tests.specs.Near.{long_names};

/// Worked values: of ten names of 200 bytes of one file in one directory the first nine are near, in an INODE_REF item of
/// 1890 bytes, and the tenth is far (own).
pub fn nine_long_names_are_near()
    ensures marks { map (λ (name : FlatName). name.near) (long_names 10)
        ≡ false ∷ true ∷ true ∷ true ∷ true ∷ true ∷ true ∷ true ∷ true ∷ true ∷ [] }
    ensures bytes { ref_item_length (long_names 10) 257 256 ≡ 1890 }
{}
