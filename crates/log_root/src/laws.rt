//! Laws of the items of a log root tree: the function here has no parameters and no body.

ghost use Rattle.std.specs.Prelude.{◌≡◌, List};
ghost use Rattle.blk_base.specs.declared.key.SubId.{SubId};
ghost use Rattle.volume_format.specs.declared.root_item.RootItem.{RootItem};
ghost use Rattle.log_root.specs.Entries.{AreIds, ids_of, log_entries, log_roots, log_subs};

/// The root items of logs are all those of a tree that has these alone, and say the ids that were given (own).
pub fn entries_read_back()
    ensures all { (subs : List (SubId × RootItem)) → AreIds subs → log_roots (log_entries subs) ≡ log_entries subs }
    ensures ids { (subs : List (SubId × RootItem)) → AreIds subs → log_subs (log_entries subs) ≡ ids_of subs }
{}
