ghost use Rattle.std.specs.Prelude.{◌≡◌, ◌↔◌, ◌≤◌, ◌<◌, ◌%◌, ◌^◌, ℕ, List, Ok, Err, length};
ghost use Rattle.blk_base.specs.declared.fault.ItemFault.TheVariants.{Align};
ghost use Rattle.blk_base.specs.declared.key.Key.{Key};
ghost use Rattle.blk_base.specs.Extents.{ExtentValue, Hole, Inline, IsExtent, IsLogExtent, IsRun, Regular, extent_of, hole_bytes, inline_bytes, log_extent_of, regular_bytes};

/// An extent is read from an item of a subvolume's tree exactly where its bytes say it.
pub fn extents_are_said()
    ensures { (key : Key) (bytes : List ℕ) (v : ExtentValue) → ((extent_of key bytes ≡ Ok v) ↔ IsExtent key bytes v) }
{}

/// An extent is read from an item of a log exactly where its bytes say it.
pub fn log_extents_are_said()
    ensures { (key : Key) (bytes : List ℕ) (v : ExtentValue) → ((log_extent_of key bytes ≡ Ok v) ↔ IsLogExtent key bytes v) }
{}

/// A log has every extent that a subvolume's tree may have.
pub fn log_reads_extents()
    ensures { (key : Key) (bytes : List ℕ) (v : ExtentValue) → extent_of key bytes ≡ Ok v → log_extent_of key bytes ≡ Ok v }
{}

/// What is a hole in a log is refused in a subvolume's tree.
pub fn hole_refused()
    ensures { (key : Key) (bytes : List ℕ) (len : ℕ) → log_extent_of key bytes ≡ Ok (Hole len) → extent_of key bytes ≡ Err Align }
{}

/// Data that were written in an item are read back.
pub fn inline_reads_back()
    ensures { (key : Key) (generation : ℕ) (content : List ℕ) → 1 ≤ length content → length content < 2 ^ 64 → key.offset ≡ 0 → extent_of key (inline_bytes generation content) ≡ Ok (Inline content) }
{}

/// A run of blocks that was written is read back.
pub fn regular_reads_back()
    ensures { (key : Key) (generation at len : ℕ) → at < 2 ^ 64 → IsRun len → key.offset % 4096 ≡ 0 → extent_of key (regular_bytes generation at len) ≡ Ok (Regular at 0 len) }
{}

/// A hole that was written is read back.
pub fn hole_reads_back()
    ensures { (key : Key) (generation len : ℕ) → len < 2 ^ 64 → len % 4096 ≡ 0 → 0 < len → key.offset % 4096 ≡ 0 → log_extent_of key (hole_bytes generation len) ≡ Ok (Hole len) }
{}
