// The structure check: does a tree name a type (refusal 30), and in how many steps. Its definitions are in specs/.

#![tactic(auto)]

pub mod checks;
pub mod declarators;
pub mod expressions;
pub mod fortran_types;
pub mod level;
pub mod moves;
pub mod selectors;
pub mod syntax;
