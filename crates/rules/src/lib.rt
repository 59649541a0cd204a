// Rules over the top-level nodes of a tree: document 02, C-11.

#![tactic(auto)]

pub mod items;
pub mod matching;
pub mod overlaps;
pub mod pairs;
pub mod row_text;
pub mod shown;
pub mod table;
pub mod winner;
