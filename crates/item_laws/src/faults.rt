ghost use Rattle.std.specs.Prelude.{◌≡◌, ◌≢◌, ◌↔◌, ℕ, List, None};
ghost use Rattle.blk_base.specs.declared.key.Key.{Key};
ghost use Rattle.blk_base.specs.Bytes.{IsBytes};
ghost use Rattle.blk_base.specs.Keys.{extent_data};
ghost use Rattle.blk_base.specs.ItemFaults.{IsLogSpelled, IsSpelled, item_fault, log_item_fault};

/// An item in the tree of a subvolume has no fault exactly where the grammar of its key's type spells its bytes.
pub fn items_have_faults()
    ensures { (key : Key) (bytes : List ℕ) → IsBytes bytes → ((item_fault key bytes ≡ None) ↔ IsSpelled key bytes) }
{}

/// An item in a log has no fault exactly where the grammar of its key's type, with holes, spells its bytes.
pub fn log_items_have_faults()
    ensures { (key : Key) (bytes : List ℕ) → IsBytes bytes → ((log_item_fault key bytes ≡ None) ↔ IsLogSpelled key bytes) }
{}

/// An item other than an extent has the same first fault in a log as in the tree of a subvolume.
pub fn faults_in_logs()
    ensures { (key : Key) (bytes : List ℕ) → key.kind ≢ extent_data → log_item_fault key bytes ≡ item_fault key bytes }
{}
