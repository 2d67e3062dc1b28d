ghost use Rattle.log_stands.specs.Laws.{ReachIsAllowed, ReachIsOnce, ReachLeavesRoom, StandsForOne, StandsIsLocal, StandsUnlogged, UnloggedStands};

/// Law: an image, with a log or without one, stands for a volume by the superblock and the blocks of its reach alone
/// (own).
pub fn stands_by_log_is_local()
    ensures { StandsIsLocal }
{}

/// Law: it stands for one volume, by one reach (own).
pub fn stands_by_log_for_one()
    ensures { StandsForOne }
{}

/// Law: without a log an image stands exactly as images without a log do (own).
pub fn unlogged_images_stand()
    ensures stands { UnloggedStands }
    ensures unlogged { StandsUnlogged }
{}

/// Law: no address of the reach stands twice in it, each is one at which the volume may have a block, and beside them
/// 82 blocks that are kept back and 116 that a mount needs at least are there (own).
pub fn reach_by_log_is_sound()
    ensures none_twice { ReachIsOnce }
    ensures allowed { ReachIsAllowed }
    ensures room { ReachLeavesRoom }
{}
