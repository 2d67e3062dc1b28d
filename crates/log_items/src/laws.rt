//! Laws of the items of a log: the functions here have no parameters and no body.

ghost use Rattle.log_items.specs.Forgotten.{ForgetsAnInode};
ghost use Rattle.log_items.specs.Keys.{DeleteKeepsKeys, PutKeepsKeys, RangeKeepsKeys};
ghost use Rattle.log_items.specs.Written.{FileIsWritten, InodeIsWritten};

/// Law: the items of a log without those that say something of an inode are the items of the log without the inode (own).
pub fn items_of_a_forgotten_inode()
    ensures { ForgetsAnInode }
{}

/// Law: keys that fit their fields stay so where an item is put in, replaced or taken out, and where a range is (own).
pub fn keys_fit_after_an_edit()
    ensures put { PutKeepsKeys }
    ensures delete { DeleteKeepsKeys }
    ensures range { RangeKeepsKeys }
{}

/// Law: the log that `write_inode` makes has the inode as it should be, and of a file that is whole once its changes are those
/// against the committed subvolume (own).
pub fn an_inode_is_written()
    ensures inode { InodeIsWritten }
    ensures file { FileIsWritten }
{}
