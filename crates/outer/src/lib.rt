// The template that a tree begins with, found by extents: document 02, C-15. Its definitions are in specs/.

#![tactic(auto)]

pub mod arguments;
pub mod entry;
