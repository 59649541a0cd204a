// The answer to a file whose template names are given: document 02, C-17. Its definitions are in specs/.

#![tactic(auto)]

pub mod entry;
pub mod name_marks;
pub mod tree;
