ghost use Rattle.tree_counts.specs.Laws.{CountIsReached, DataAreCounted, ItemsAreCounted};

/// Law: rising items that are those of a subvolume are no more than the subvolume asks for, where each data block counts as
/// an extent item, and a bare subvolume has as many; and they lead to as many data blocks as the subvolume's files have
/// ("File trees", own count of extents).
pub fn items_are_counted()
    ensures items { ItemsAreCounted }
    ensures reached { CountIsReached }
    ensures addresses { DataAreCounted }
{}
