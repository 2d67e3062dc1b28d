//! Operations on names in the tree of a subvolume: `lookup`, `create`, `mkdir`, `symlink`, `link`, `unlink`, `rmdir`, `rename` and
//! `exchange`. A walk and a few more searches decide which refusal comes first; where none does, the subvolume is edited copy on
//! write. No call takes memory.
//!
//! `IsOperated` of `table_volume` says what each comes to: the answer and the next subvolume of the definition of operations, in an
//! edit of this subvolume alone that takes at most 512 blocks and buffers, and 2 for each data block, inline extent and attribute item
//! that it removes. `refused_make` and its like tell the answer that refuses an operation, by the same tests in the same order, and
//! edit nothing.
#![tactic(auto)]

mod colliding;
mod deciding;
mod editing;
mod exchanging;
mod finding;
mod judging;
mod keeping;
mod linking;
mod making;
mod places;
mod refusing;
mod removing;
mod renaming;
mod sums;

pub use exchanging::exchange;
pub use finding::lookup;
pub use judging::{
    refused_exchange, refused_link, refused_make, refused_rename, refused_rmdir, refused_unlink,
};
pub use linking::link;
pub use making::{create, mkdir, symlink};
pub use removing::{rmdir, unlink};
pub use renaming::rename;
