// Several types in one directive (document 02, C-12): a row cut into parts, each read as its own row. Its definitions are in specs/.

#![tactic(auto)]

pub mod answer;
pub mod entry;
pub mod part;
pub mod parts;
