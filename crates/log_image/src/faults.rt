ghost use Rattle.log_image.specs.Laws.{AcceptedIsExact, BrokenIsLowest, FaultIsFirst};

/// Law: rising items of bytes, with the data blocks that they lead to, are read as a log exactly where they are that
/// log's, and it is accepted over the committed subvolume (own).
pub fn logs_are_accepted()
    ensures { AcceptedIsExact }
{}

/// Law: a log that is refused has a faulty item, and the first one in key order is named, or else the lowest objectid
/// that breaks a rule of accepted logs (own).
pub fn logs_are_refused()
    ensures item { FaultIsFirst }
    ensures rule { BrokenIsLowest }
{}
