use blk_base::{Ino, Text};

/// Why an fsync was made as a full commit.
#[derive(Drop, Debug)]
pub enum Reason {
    /// So many inodes were drawn in by conflicts alone, and that is more than the limit.
    Conflicts(u64),
    /// This directory is gone, and in the log it still has a name of an inode that isn't drawn.
    GoneDir(Ino),
    /// So many blocks are free, and the log step needs so many.
    Space { free: u64, need: u64 },
    /// So many device calls failed since the last durable full commit.
    FailedLog(u64),
}

/// What a call answers.
#[derive(Drop, Debug)]
pub enum Answer {
    /// Done.
    Plain,
    /// Done: an inode number, or how many bytes were written.
    Number(u64),
    /// Done: the bytes that were read, or an attribute's value.
    Bytes(Text),
    /// Nothing had to be done.
    Already,
    /// Done by the log.
    Log,
    /// Done by a full commit that this call asked for, with its reason.
    Commit(Reason),
    /// Done by a full commit that another call asked for.
    Full,
    /// A sync is done.
    Sync,
    /// The two places are of two subvolumes.
    Xdev,
    /// The subvolume or a name isn't there.
    NoEnt,
    /// Something that has to be a directory is none.
    NotDir,
    /// Something that may not be a directory is one.
    IsDir,
    /// The place is taken.
    Exists,
    /// The directory has names.
    NotEmpty,
    /// The root directory, a place below itself, two places of which one lies below the other, or a symlink where a
    /// file is needed.
    Loop,
    /// The file has as many names as it may have.
    Links,
    /// A size, a value or a number would pass its limit.
    TooLarge,
    /// The attribute isn't there.
    NoAttr,
    /// An item would have more bytes than a leaf holds.
    Collide,
    /// So many blocks are free, and the operation needs so many.
    NoSpace { free: u64, need: u64 },
    /// A device call of this call failed.
    Io,
}
