// The functions that C and Rust link, each a call of an entry below: crate `exports_c` exports them under the same names. include/type_name.h says what no
// contract covers.

#![tactic(auto)]

pub mod conversion;
pub mod list;
pub mod matching;
pub mod named;
pub mod numbers;
pub mod overlap;
pub mod read;
pub mod template;
