ghost use Rattle.tree_counts.specs.Laws.{AllTreesAreCounted, CommitsAreCounted, TreesAreCounted, VolumesAreCounted};

/// Law: the tree of a subvolume in the table has at most two blocks for each item that the subvolume asks for, and one more;
/// and all blocks that the states of a volume reach are at most its data blocks and those of its trees (own).
pub fn blocks_are_counted()
    ensures trees { TreesAreCounted }
    ensures volumes { VolumesAreCounted }
{}

/// Law: with a tree of roots that has an item for each state, the trees of a volume have at most the blocks that trees of the
/// flat volume may have; and with the data, at most its data blocks more (own).
pub fn committed_blocks_are_counted()
    ensures trees { AllTreesAreCounted }
    ensures all { CommitsAreCounted }
{}
