//! Laws of the listings of a log: the functions here have no parameters and no body.

ghost use Rattle.dir_ranges.specs.Indexes.{TreesSayRanges};
ghost use Rattle.dir_ranges.specs.Listing.{DropsAListing, PutsAListing};
ghost use Rattle.dir_ranges.specs.Ranges.{PutsARange};

/// Law: the items of a log with that of a range put in are the items of the log with the range (own).
pub fn items_with_a_range()
    ensures { PutsARange }
{}

/// Law: the items of a log with a range or an entry put in are the items of the log with it (own).
pub fn items_with_a_listing()
    ensures { PutsAListing }
{}

/// Law: the items of a log without a directory's ranges and entries are the items of the log without them (own).
pub fn items_without_a_listing()
    ensures { DropsAListing }
{}

/// Law: the ranges of a directory by the items of two trees are those of the coherent subvolumes that the trees give (own).
pub fn ranges_of_two_trees()
    ensures { TreesSayRanges }
{}
