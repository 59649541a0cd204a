// Shapes: what a node is to the rules is one number, and no enum: the shape of a T is the kind of its token, which may be any byte.

use rows::kinds::NO_TOKEN_KIND;

// Where there is no node.
pub const NO_NODE: u8 = NO_TOKEN_KIND;

pub const PARENTHESIZED: u8 = 59;

pub const BRACKETED: u8 = 60;

pub const TEMPLATE_ARGUMENTS: u8 = 61;
