//! What an image of a disk stands for: its trees, the items of a subvolume, and the volume; definitions and laws alone.
#![tactic(auto)]

mod fault;
mod laws;

pub use fault::LoadFault;
pub use laws::{
    bare_volume_stands, bare_volumes_stand, blocks_have_one_extent, generations_go_round,
    items_are_local, items_fit_leaves, items_have_lengths, items_have_one_subvolume,
    items_have_their_keys, log_roots_are_read, logs_are_wanted, reach_is_sound, roots_are_read,
    roots_are_wanted, stands_by_one_reach, stands_for_one_volume, stands_is_local,
    subvolumes_are_few, tall_tree_is_wide, tree_is_local, tree_is_one, tree_is_walked,
    tree_is_walked_after, tree_reach_is_sound, two_leaves_are_a_tree, worked_items_are,
};
