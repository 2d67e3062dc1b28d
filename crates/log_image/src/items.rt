ghost use Rattle.log_image.specs.Laws.{LogIsLocal, LogIsOne};

/// Law: the items of a log tree with their data blocks are those of one flat log at most (own).
pub fn log_items_have_one_log()
    ensures { LogIsOne }
{}

/// Law: of the data blocks only those count to which the items lead (own).
pub fn log_items_are_local()
    ensures { LogIsLocal }
{}
