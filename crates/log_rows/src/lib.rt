//! What an fsync logs, for whole runs: a log that each log step writes, and worked values of drawn sets, rules, log
//! steps, logs and replay, computed from the definitions for runs of a few operations. All laws are of definitions
//! alone: the functions here have no parameters and no body.
#![tactic(auto)]

mod logs;
mod rows;

pub use logs::each_step_has_its_log;
pub use rows::{
    changed_indexes, data_alone, files_made_again, gone_directories, moved_directories,
    removed_names, renamed_files, rows_of_renames, whole_inodes,
};
