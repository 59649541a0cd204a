// The prescan: document 01, "Bracket pairs".

#![tactic(auto)]

pub mod boundary;
pub mod prescan;
pub mod scan;
