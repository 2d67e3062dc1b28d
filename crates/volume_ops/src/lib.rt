//! Operations on the trees of a volume's subvolumes: each is carried out in the subvolume of its places.
//!
//! `IsDone` of `specs/Done.antt` says what an operation comes to: the answer and the next volume of the definition of
//! operations, with indexes of new names that it leaves open, by an edit of that subvolume's blocks alone. What it needs is
//! told before: `need` is the number of blocks that have to be free, 0 where the operation is refused or only reads.
#![tactic(auto)]

mod indexes;
mod judging;
mod needs;
mod operation;
mod places;
mod reading;
mod room;
mod within;

pub use indexes::{made_indexes, next_index};
pub use needs::need;
pub use operation::operate;
