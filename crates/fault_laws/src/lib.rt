//! Laws that join the checks of loaded trees with the order of an image's faults: where the table has the image's blocks,
//! both name the same fault. The functions here have no parameters and no body.
#![tactic(auto)]

mod laws;

pub use laws::{
    a_data_fault_is_the_first, an_incoherent_inode_is_the_first, an_item_fault_is_the_first,
};
