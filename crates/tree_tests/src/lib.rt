//! Tests of the table of blocks and of trees in it, by public calls: rows of puts and deletes, ranges, and blocks that are
//! no tree.
//!
//! They stand apart so that no crate is proved once more with its tests.
#![tactic(auto)]

#[cfg(test)]
mod ranges;
#[cfg(test)]
mod reading;
#[cfg(test)]
mod rows;
#[cfg(test)]
mod table;
#[cfg(test)]
mod writing;
