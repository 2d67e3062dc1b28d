ghost use Rattle.log_counts.specs.Laws.{ItemsAreCounted, LogsAreCounted};

/// Law: the items of a log tree, counted one for each name and each attribute in them, are no more than the flat log
/// has, counted entry by entry: so the weight of the log steps that wrote it bounds them (own).
pub fn log_items_are_counted()
    ensures items { ItemsAreCounted }
    ensures logs { LogsAreCounted }
{}
