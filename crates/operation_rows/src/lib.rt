//! Worked rows of operations: scripts of one operation a line with its answer, worked out by hand, and their reader.
//!
//! Crates of tests carry them out on the plain volume and on trees in a table.
#![tactic(auto)]

mod reader;
mod rows;

pub use reader::{RowFault, is_said, name_of, operation, path_of};
pub use rows::scripts;
