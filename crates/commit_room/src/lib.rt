//! Laws on room: how few blocks may be free where an operation was short or a log step found too little room.
//!
//! The events of `commit_history` show how many blocks were free. Two things of whoever keeps the blocks bound these numbers:
//! behind a full commit the addresses in use are its data blocks and trees, and each event takes at most its charge. All laws
//! are of definitions alone: the functions here have no parameters and no body.
#![tactic(auto)]

mod room;
mod worked;

pub use room::{committed_is_of_logs, room_of_answers};
pub use worked::{worked_charges, worked_counts};
