//! The blocks of a table behind a full commit.
//!
//! Once a full commit's batch is on the device, its Sealed blocks are Live (`settle_sealed`); where it fails, they are Dirty
//! again (`unseal_sealed`). The blocks that were let go before the seal are noted (`note_let_go`), so that these and no
//! later ones are released once the superblock that led to them is gone (`release_noted`). The blocks of a root tree go by
//! the tree (`let_go_tree`, `release_tree`). No call takes memory.
//!
//! `specs/Commit.antt` says what becomes of the table block by block. What a caller can derive from it stands in
//! `proofs/Settled.antt`, `proofs/Addresses.antt` and `proofs/Gone.antt`.
#![tactic(auto)]

mod noted;
mod number;
mod settle;
mod trees;

pub use noted::{note_let_go, release_noted};
pub use settle::{settle_sealed, unseal_sealed};
pub use trees::{let_go_tree, release_tree};
