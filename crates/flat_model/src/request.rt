use crate::{Op, Place};

/// What a caller asks for.
#[derive(Drop, Debug)]
pub enum Request {
    /// An operation on the volume.
    Op(Op),
    /// What the inode at a place is now, its record and its names, is to be on the disk (fsync(2)).
    Fsync(Place),
    /// The record of the inode at a place is to be on the disk (fdatasync(2)).
    Fdatasync(Place),
    /// All that was done before is to be on the disk (sync(2)).
    Sync,
}

/// A line of a script that does something, with its caller, 1 to 16 (own).
#[derive(Drop, Debug)]
pub enum Line {
    /// A call that begins and ends.
    Plain(u32, Request),
    /// A call that begins, and takes no turn yet.
    Start(u32, Request),
    /// The call that the caller began takes a turn.
    Step(u32),
    /// The call that the caller began takes turns to its end.
    End(u32),
}
