//! Whether the numbers of an inode's item are right: its nlink, size and nbytes, how many names it has, and of a directory
//! that names lead down to it.
#![tactic(auto)]

mod numbers;

pub use numbers::{is_right_dir, is_right_file, is_right_link};
