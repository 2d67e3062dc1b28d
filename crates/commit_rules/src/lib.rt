//! Whether an fsync is made as a full commit in place of a log step: too many inodes drawn by slots alone, a directory that
//! would be stranded, too little room, or a device call that failed. It reads what is drawn and a few numbers, and takes no
//! memory.
#![tactic(auto)]

mod rules;

pub use rules::{Numbers, rule};
