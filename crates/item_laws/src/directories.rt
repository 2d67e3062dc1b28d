ghost use Rattle.std.specs.Prelude.{◌≡◌, ◌≢◌, ◌↔◌, ◌<◌, ℕ, List, [], ◌∷◌, Ok, length};
ghost use Rattle.std.specs.List.{AllByRecursion, flat_map};
ghost use Rattle.blk_base.specs.Bytes.{IsBytes};
ghost use Rattle.blk_base.specs.Keys.{dir_index};
ghost use Rattle.blk_base.specs.Entries.{EntryFits, EntryValue, IsEntries, IsEntryKind, entries_of, entry_bytes};
ghost use Rattle.blk_base.specs.Name.{IsName};
ghost use Rattle.item_laws.specs.Apart.{NamesDiffer};

/// Entries are read from an item, of a directory or of attributes, exactly where they are what its bytes spell.
pub fn entries_are_spelled()
    ensures { (kind : ℕ) (bytes : List ℕ) (entries : List EntryValue) → IsBytes bytes → ((entries_of kind bytes ≡ Ok entries) ↔ IsEntries kind bytes entries) }
{}

/// Entries that were written one behind the other are read back.
pub fn entries_read_back()
    ensures { (kind : ℕ) (entries : List EntryValue) → entries ≢ [] → AllByRecursion EntryFits entries → AllByRecursion (λ e. IsName e.name) entries → AllByRecursion (IsEntryKind kind) entries → NamesDiffer entries → (kind ≡ dir_index → length entries ≡ 1) → entries_of kind (flat_map entry_bytes entries) ≡ Ok entries }
{}

/// One entry that was written is read back.
pub fn entry_reads_back()
    ensures { (kind : ℕ) (e : EntryValue) → EntryFits e → IsName e.name → IsEntryKind kind e → entries_of kind (entry_bytes e) ≡ Ok (e ∷ []) }
{}
