// Token kinds: document 01, "Token record": the place of each in `TokenKind`. Numbers, and no enum: `prescan_row`, `parse` and
// `validate_structured_syntax` promise an answer for every byte as a kind.

pub const IDENTIFIER: u8 = 0;

pub const RESERVED_KEYWORD: u8 = 1;

pub const INTEGER: u8 = 2;

pub const REAL: u8 = 3;

pub const CHARACTER: u8 = 4;

pub const STRING: u8 = 5;

pub const BOOLEAN: u8 = 6;

pub const NULL_POINTER: u8 = 7;

pub const LEFT_PAREN: u8 = 8;

pub const RIGHT_PAREN: u8 = 9;

pub const LEFT_BRACKET: u8 = 10;

pub const RIGHT_BRACKET: u8 = 11;

pub const COMMA: u8 = 12;

pub const QUESTION: u8 = 13;

pub const COLON: u8 = 14;

pub const SCOPE: u8 = 15;

pub const DOT: u8 = 16;

pub const PERCENT: u8 = 17;

pub const ARROW: u8 = 18;

pub const PLUS: u8 = 19;

pub const MINUS: u8 = 20;

pub const STAR: u8 = 21;

pub const SLASH: u8 = 22;

pub const POWER: u8 = 23;

pub const CONCAT: u8 = 24;

pub const REMAINDER: u8 = 25;

pub const LOGICAL_NOT: u8 = 26;

pub const BITWISE_NOT: u8 = 27;

pub const AMPERSAND: u8 = 28;

pub const PIPE: u8 = 29;

pub const CARET: u8 = 30;

pub const LOGICAL_AND: u8 = 31;

pub const LOGICAL_OR: u8 = 32;

pub const LOGICAL_EQV: u8 = 33;

pub const LOGICAL_NEQV: u8 = 34;

pub const FORTRAN_DEFINED_OPERATOR: u8 = 35;

pub const EQUAL: u8 = 36;

pub const EQUAL_EQUAL: u8 = 37;

pub const NOT_EQUAL: u8 = 38;

pub const LESS: u8 = 39;

pub const LESS_EQUAL: u8 = 40;

pub const GREATER: u8 = 41;

pub const GREATER_EQUAL: u8 = 42;

pub const SHIFT_LEFT: u8 = 43;

pub const SHIFT_RIGHT: u8 = 44;

pub const PLUS_PLUS: u8 = 45;

pub const MINUS_MINUS: u8 = 46;

pub const PLUS_EQUAL: u8 = 47;

pub const MINUS_EQUAL: u8 = 48;

pub const STAR_EQUAL: u8 = 49;

pub const SLASH_EQUAL: u8 = 50;

pub const REMAINDER_EQUAL: u8 = 51;

pub const AMPERSAND_EQUAL: u8 = 52;

pub const PIPE_EQUAL: u8 = 53;

pub const CARET_EQUAL: u8 = 54;

pub const SHIFT_LEFT_EQUAL: u8 = 55;

pub const SHIFT_RIGHT_EQUAL: u8 = 56;

pub const END: u8 = 57;

// Stands for the kind where there is no token.
pub const NO_TOKEN_KIND: u8 = 58;
