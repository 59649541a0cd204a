// The reading of a row whose template names are given: document 02, C-17. Its definitions are in specs/.

#![tactic(auto)]

mod frames;
pub mod parse;
mod tokens;
