//! Tests of readers and writers of the format, by public calls: bytes as the format has them, and the first fault of changed
//! ones.
//!
//! They stand apart so that no crate is proved once more with its tests.
#![tactic(auto)]

#[cfg(test)]
mod entries;
#[cfg(test)]
mod extents;
#[cfg(test)]
mod inodes;
#[cfg(test)]
mod leaf_edited;
#[cfg(test)]
mod leaf_read;
#[cfg(test)]
mod node_edited;
#[cfg(test)]
mod volume_formats;
