// The entries of rules: document 02, C-11. Their definitions are in specs/.

#![tactic(auto)]

pub mod matching;
pub mod overlap;
pub mod row_places;
