//! What must hold of one item of a tree beside its key: of the entries of a directory's items, by the slots of the tree's
//! names, and of attributes.
#![tactic(auto)]

mod entries;

pub use entries::{are_right_attributes, are_right_entries, is_right_index_item};
