// The known words by number, and which word a number stands for: specs/Words.antt. Numbers, and no enum: `validate_structured_syntax` and
// `validate_profile_features` promise an answer for every byte as a word number.

ghost use Rattle.std.specs.Prelude.{◌≡◌};
ghost use Rattle.rows.specs.Words.{exactly, ignoring_case};

pub const NO_WORD: u8 = 0;

pub const VOID: u8 = 1;

pub const BOOL: u8 = 2;

pub const C_BOOL: u8 = 3;

pub const CHAR: u8 = 4;

pub const WCHAR_T: u8 = 5;

pub const CHAR8_T: u8 = 6;

pub const CHAR16_T: u8 = 7;

pub const CHAR32_T: u8 = 8;

pub const INT: u8 = 9;

pub const FLOAT: u8 = 10;

pub const DOUBLE: u8 = 11;

pub const DECIMAL32: u8 = 12;

pub const DECIMAL64: u8 = 13;

pub const DECIMAL128: u8 = 14;

pub const SHORT: u8 = 15;

pub const LONG: u8 = 16;

pub const SIGNED: u8 = 17;

pub const UNSIGNED: u8 = 18;

pub const C_COMPLEX: u8 = 19;

pub const IMAGINARY: u8 = 20;

pub const CONST: u8 = 21;

pub const VOLATILE: u8 = 22;

pub const RESTRICT: u8 = 23;

pub const NOEXCEPT: u8 = 24;

pub const TRANSACTION_SAFE: u8 = 25;

pub const GNU_RESTRICT: u8 = 26;

pub const GNU_RESTRICT_CLOSED: u8 = 27;

pub const ATOMIC: u8 = 28;

pub const DECLTYPE: u8 = 29;

pub const TYPEOF: u8 = 30;

pub const TYPEOF_UNQUAL: u8 = 31;

pub const GNU_TYPEOF: u8 = 32;

pub const GNU_TYPEOF_CLOSED: u8 = 33;

pub const BIT_INT: u8 = 34;

pub const STRUCT: u8 = 35;

pub const UNION: u8 = 36;

pub const ENUM: u8 = 37;

pub const TYPENAME: u8 = 38;

pub const CLASS: u8 = 39;

pub const TYPE: u8 = 40;

pub const PRECISION: u8 = 41;

pub const COMPLEX: u8 = 42;

// Added to the number of a word that is known with case ignored only.
pub const OTHER_CASE: u8 = 128;

// Which known word it is exactly, by its number.
pub fn exactly(number: u8) -> u8
    ensures { result ≡ exactly number }
{
    if number < OTHER_CASE {
        return number;
    }
    NO_WORD
}

// Which known word it is with case ignored, by its number.
pub fn ignoring_case(number: u8) -> u8
    ensures { result ≡ ignoring_case number }
{
    if number < OTHER_CASE {
        return number;
    }
    number - OTHER_CASE
}
