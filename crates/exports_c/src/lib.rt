// What C and Rust link: each of the exported functions, a call of the function of `exports` that has its name and its clauses. include/type_name.h says
// what no contract covers. The two crates stand beside each other for the C interface: a static library cannot be used by another crate.

#![tactic(auto)]

pub mod conversion;
pub mod list;
pub mod matching;
pub mod named;
pub mod overlap;
pub mod read;
pub mod template;
