// The names that open template lists: document 02, C-17.

#![tactic(auto)]

pub mod marks;
pub mod name_list;
pub mod table;
