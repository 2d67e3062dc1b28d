ghost use Rattle.logged_volume.specs.Laws.{LeastSetIsThere, LeastSetIsOne, StrandedIsLeast, NoneIsStranded, IntervalsAreMaximal, NoneIsLeftOut};

/// Law: the least set under the rules of an fsync is there, with the rule on slots or without it, and it is one (own).
pub fn drawn_set_is_least()
    ensures there { LeastSetIsThere }
    ensures one { LeastSetIsOne }
{}

/// Law: the stranded directory is the least one that is stranded, and there is none exactly where none is (own).
pub fn stranded_directory_is_least()
    ensures least { StrandedIsLeast }
    ensures none { NoneIsStranded }
{}

/// Law: the intervals by which a log has holes and ranges are maximal, and each of the other numbers below the end that
/// isn't one of the first lies in one (own).
pub fn intervals_are_maximal()
    ensures maximal { IntervalsAreMaximal }
    ensures each { NoneIsLeftOut }
{}
