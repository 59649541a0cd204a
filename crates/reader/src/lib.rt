// The reader: document 01, "Node record". It reads a row's token kinds into a tree of node records.

#![tactic(auto)]

pub mod nodes;
pub mod parser;
pub mod tables;
