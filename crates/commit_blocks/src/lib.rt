//! The blocks of a mounted volume and of its full commits.
//!
//! `Kept` has the table of blocks with the current volume, and the root trees of the superblocks that a crash may find. A
//! full commit seals the volume (`seal`), and ends once its superblock is written (`finish`), once that write has failed
//! (`keep_tried`), or before it was tried (`take_back`). `KeepsBlocks` of `specs/Keeps.antt` says what holds between these
//! calls: what each superblock reaches that a crash may find is there, and none of it is edited.
#![tactic(auto)]

mod buffers;
mod ending;
mod kept;
mod mounting;
mod operating;
mod sealing;

pub use kept::Kept;
