use blk_base::{Ino, SubId};
use flat_model::{Answer, Op, Place, Reason};

/// A turn that one caller at a time holds while it commits. Turns are taken in the order slot, root, full (own).
#[derive(Clone, Copy, Debug, PartialEq, Eq)]
pub enum Turn {
    /// One of the two slots of a subvolume's log, 0 or 1 (after the two commit indexes of a root in the kernel's
    /// tree-log.c).
    Slot(SubId, u8),
    /// The commit of the logs of all subvolumes, by a superblock with a log root.
    Root,
    /// The commit of the whole volume.
    Full,
}

/// How an operation ended.
#[derive(Drop, Debug)]
pub enum OpEnd {
    /// It was done or refused, with this answer. In an event an answer of bytes stands as no bytes.
    Answered(Answer),
    /// So many blocks are free, and it needs so many: nothing has changed.
    Short { free: u64, need: u64 },
}

/// How a log step ended.
#[derive(Drop, Debug)]
pub enum Logged {
    /// All that it asks for is on the disk.
    Already,
    /// It stands in the log of its subvolume, and is durable once the log of this number is.
    Ticket(u64),
    /// The volume has to be committed, for this reason.
    Full(Reason),
}

/// By which commit what a caller waits for became durable.
#[derive(Clone, Copy, Debug, PartialEq, Eq)]
pub enum Cover {
    /// By none yet.
    Open,
    /// By a commit of the logs.
    Root,
    /// By a commit of the whole volume.
    Full,
}

/// A step of one caller, 1 to 16, on a mounted volume (own; after btrfs_sync_log and btrfs_commit_transaction).
#[derive(Drop, Debug)]
pub enum Event {
    /// An operation; `again` where it was short before. `indexes` are those of the at most two names that it made, 0
    /// where there is none.
    Op {
        caller: u32,
        op: Op,
        again: bool,
        end: OpEnd,
        indexes: [u64; 2],
    },
    /// The path of an fsync or fdatasync isn't there.
    Refused {
        caller: u32,
        target: Place,
        answer: Answer,
    },
    /// The log step of an fsync, or with `datasync` of an fdatasync.
    Log {
        caller: u32,
        sub: SubId,
        ino: Ino,
        end: Logged,
        datasync: bool,
    },
    /// The caller asks for a commit of the whole volume.
    Ask {
        caller: u32,
    },
    /// The log of a subvolume gets no more items under this number, and its blocks are handed out.
    SealSub {
        caller: u32,
        sub: SubId,
        number: u64,
    },
    /// These blocks are written.
    SubWritten {
        caller: u32,
        sub: SubId,
        number: u64,
    },
    /// The log root is made, and its blocks and superblock are handed out.
    SealRoot {
        caller: u32,
    },
    /// That superblock is written.
    RootDone {
        caller: u32,
    },
    /// The whole volume is sealed, and its blocks and superblock are handed out.
    SealFull {
        caller: u32,
    },
    /// That superblock is written.
    FullDone {
        caller: u32,
    },
    /// The caller's device call in this turn failed; `tried` where its superblock may be written.
    Failed {
        caller: u32,
        turn: Turn,
        tried: bool,
    },
    /// After a failure, the caller gives up the slot of this number.
    GiveUp {
        caller: u32,
        sub: SubId,
        number: u64,
    },
}
