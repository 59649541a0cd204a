// Files brought over from document 01's format and back: document 02, C-14 and C-16.

#![tactic(auto)]

pub mod check;
pub mod entry;
pub mod standards;
pub mod write;
