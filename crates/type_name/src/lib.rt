// The entry: a file and a tree buffer in, an answer out (document 01). Its definitions are in specs/.

#![tactic(auto)]

pub mod buffer;
pub mod entry;
pub mod file_row;
pub mod tree;
