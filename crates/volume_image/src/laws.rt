//! Laws of the definitions alone: each is the contract of a function that does nothing.

mod bare;
mod items;
mod roots;
mod stands;
mod trees;

pub use bare::{bare_volume_stands, bare_volumes_stand};
pub use items::{
    blocks_have_one_extent, items_are_local, items_fit_leaves, items_have_lengths,
    items_have_one_subvolume, items_have_their_keys, worked_items_are,
};
pub use roots::{
    generations_go_round, log_roots_are_read, logs_are_wanted, roots_are_read, roots_are_wanted,
    subvolumes_are_few,
};
pub use stands::{reach_is_sound, stands_by_one_reach, stands_for_one_volume, stands_is_local};
pub use trees::{
    tall_tree_is_wide, tree_is_local, tree_is_one, tree_is_walked, tree_is_walked_after,
    tree_reach_is_sound, two_leaves_are_a_tree,
};
