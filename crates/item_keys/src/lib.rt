//! Whether the key of an item is the one that the format gives for its content, and whether its type is one that the
//! tree may have: of a subvolume or of a log.
#![tactic(auto)]

mod entries;
mod key;
#[cfg(test)]
mod tests;

pub use key::{has_its_key, is_log_kind, is_subvolume_kind};
