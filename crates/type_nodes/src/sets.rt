// The sets of words and tokens that the structure check compares with: specs/Sets.antt.

ghost use Rattle.std.specs.Prelude.{◌≡◌};
ghost use Rattle.rows.specs.Notation.{◌is_one_of◌};
ghost use Rattle.type_nodes.specs.Ranges.{◌is_within_one_of◌, c_family_ranges, fortran_ranges};
ghost use Rattle.type_nodes.specs.Sets.{accesses_of, cpp_elaborated_words, declarator_starts, derived_type_words, elaborated_words, is_binary_or_assignment_operator, is_c_builtin_type_word, is_c_family_declarator_qualifier, is_keyword, literals, member_accesses, parenthesis_words, postfix_operators, prefix_operators, prefix_or_binary_operators, reference_operators, signs, typeof_words, words_after_double};

use crate::shapes::{BRACKETED, PARENTHESIZED};
use rows::kinds::{
    AMPERSAND, ARROW, BITWISE_NOT, BOOLEAN, CHARACTER, COMMA, CONCAT, DOT, EQUAL, GREATER_EQUAL,
    INTEGER, LOGICAL_AND, LOGICAL_NEQV, LOGICAL_NOT, LOGICAL_OR, MINUS, MINUS_MINUS, NULL_POINTER,
    PERCENT, PLUS, PLUS_EQUAL, PLUS_PLUS, REAL, REMAINDER, SCOPE, SHIFT_RIGHT, SHIFT_RIGHT_EQUAL,
    SLASH, STAR, STRING,
};
use rows::languages::FORTRAN;
use rows::word_numbers::{
    ATOMIC, BIT_INT, BOOL, C_BOOL, C_COMPLEX, CHAR, CHAR8_T, CHAR16_T, CHAR32_T, CLASS, COMPLEX,
    CONST, DECIMAL32, DECIMAL64, DECIMAL128, DECLTYPE, DOUBLE, ENUM, FLOAT, GNU_RESTRICT,
    GNU_RESTRICT_CLOSED, GNU_TYPEOF, GNU_TYPEOF_CLOSED, IMAGINARY, INT, LONG, NOEXCEPT, PRECISION,
    RESTRICT, SHORT, SIGNED, STRUCT, TRANSACTION_SAFE, TYPE, TYPENAME, TYPEOF, TYPEOF_UNQUAL,
    UNION, UNSIGNED, VOID, VOLATILE, WCHAR_T,
};

pub fn is_c_builtin_type_word(word: u8) -> bool
    ensures { result ≡ is_c_builtin_type_word word }
{
    (word == VOID)
        | (word == BOOL)
        | (word == C_BOOL)
        | (word == CHAR)
        | (word == WCHAR_T)
        | (word == CHAR8_T)
        | (word == CHAR16_T)
        | (word == CHAR32_T)
        | (word == SHORT)
        | (word == INT)
        | (word == LONG)
        | (word == SIGNED)
        | (word == UNSIGNED)
        | (word == FLOAT)
        | (word == DOUBLE)
        | (word == C_COMPLEX)
        | (word == IMAGINARY)
        | (word == DECIMAL32)
        | (word == DECIMAL64)
        | (word == DECIMAL128)
}

pub fn is_c_family_declarator_qualifier(word: u8) -> bool
    ensures { result ≡ is_c_family_declarator_qualifier word }
{
    (word == CONST)
        | (word == VOLATILE)
        | (word == RESTRICT)
        | (word == ATOMIC)
        | (word == NOEXCEPT)
        | (word == TRANSACTION_SAFE)
        | (word == GNU_RESTRICT)
        | (word == GNU_RESTRICT_CLOSED)
}

pub fn is_sign(word: u8) -> bool
    ensures { result ≡ (word is_one_of signs) }
{
    (word == SIGNED) | (word == UNSIGNED)
}

pub fn is_parenthesis_word(word: u8) -> bool
    ensures { result ≡ (word is_one_of parenthesis_words) }
{
    (word == DECLTYPE)
        | (word == TYPEOF)
        | (word == TYPEOF_UNQUAL)
        | (word == GNU_TYPEOF)
        | (word == GNU_TYPEOF_CLOSED)
        | (word == ATOMIC)
        | (word == BIT_INT)
}

pub fn is_typeof_word(word: u8) -> bool
    ensures { result ≡ (word is_one_of typeof_words) }
{
    (word == TYPEOF) | (word == TYPEOF_UNQUAL) | (word == GNU_TYPEOF) | (word == GNU_TYPEOF_CLOSED)
}

pub fn is_elaborated_word(word: u8) -> bool
    ensures { result ≡ (word is_one_of elaborated_words) }
{
    (word == STRUCT) | (word == UNION) | (word == ENUM) | (word == CLASS) | (word == TYPENAME)
}

pub fn is_cpp_elaborated_word(word: u8) -> bool
    ensures { result ≡ (word is_one_of cpp_elaborated_words) }
{
    (word == CLASS) | (word == TYPENAME)
}

pub fn is_derived_type_word(word: u8) -> bool
    ensures { result ≡ (word is_one_of derived_type_words) }
{
    (word == TYPE) | (word == CLASS)
}

pub fn is_word_after_double(word: u8) -> bool
    ensures { result ≡ (word is_one_of words_after_double) }
{
    (word == PRECISION) | (word == COMPLEX)
}

// A word that a leading `::` does not introduce.
pub fn is_keyword(word: u8) -> bool
    ensures { result ≡ is_keyword word }
{
    is_c_builtin_type_word(word)
        | is_c_family_declarator_qualifier(word)
        | is_elaborated_word(word)
        | is_parenthesis_word(word)
}

pub fn is_reference_operator(shape: u8) -> bool
    ensures { result ≡ (shape is_one_of reference_operators) }
{
    (shape == AMPERSAND) | (shape == LOGICAL_AND)
}

pub fn is_declarator_start(shape: u8) -> bool
    ensures { result ≡ (shape is_one_of declarator_starts) }
{
    (shape == STAR)
        | (shape == AMPERSAND)
        | (shape == LOGICAL_AND)
        | (shape == SCOPE)
        | (shape == PARENTHESIZED)
        | (shape == BRACKETED)
}

pub fn is_literal(shape: u8) -> bool
    ensures { result ≡ (shape is_one_of literals) }
{
    (shape == INTEGER)
        | (shape == REAL)
        | (shape == CHARACTER)
        | (shape == STRING)
        | (shape == BOOLEAN)
        | (shape == NULL_POINTER)
}

pub fn is_member_access(shape: u8) -> bool
    ensures { result ≡ (shape is_one_of member_accesses) }
{
    (shape == DOT) | (shape == ARROW) | (shape == PERCENT)
}

// `valid_access`
pub fn is_access_of(language: u8, shape: u8) -> bool
    ensures { result ≡ (shape is_one_of accesses_of language) }
{
    if language == FORTRAN {
        return shape == PERCENT;
    }
    (shape == DOT) | (shape == ARROW)
}

pub fn is_prefix_operator(shape: u8) -> bool
    ensures { result ≡ (shape is_one_of prefix_operators) }
{
    (shape == LOGICAL_NOT) | (shape == BITWISE_NOT) | (shape == PLUS_PLUS) | (shape == MINUS_MINUS)
}

pub fn is_prefix_or_binary_operator(shape: u8) -> bool
    ensures { result ≡ (shape is_one_of prefix_or_binary_operators) }
{
    (shape == PLUS) | (shape == MINUS) | (shape == STAR) | (shape == AMPERSAND)
}

pub fn is_postfix_operator(shape: u8) -> bool
    ensures { result ≡ (shape is_one_of postfix_operators) }
{
    (shape == PLUS_PLUS) | (shape == MINUS_MINUS)
}

// A range of kinds a line, named by its first and last: specs/Ranges.antt.
fn is_c_family_operator(kind: u8) -> bool
    ensures { result ≡ (kind is_within_one_of c_family_ranges) }
{
    ((PLUS <= kind) & (kind <= SLASH))
        | ((REMAINDER <= kind) & (kind <= REMAINDER))
        | ((AMPERSAND <= kind) & (kind <= LOGICAL_OR))
        | ((EQUAL <= kind) & (kind <= SHIFT_RIGHT))
        | ((PLUS_EQUAL <= kind) & (kind <= SHIFT_RIGHT_EQUAL))
        | ((COMMA <= kind) & (kind <= COMMA))
}

fn is_fortran_operator(kind: u8) -> bool
    ensures { result ≡ (kind is_within_one_of fortran_ranges) }
{
    ((PLUS <= kind) & (kind <= CONCAT))
        | ((LOGICAL_AND <= kind) & (kind <= LOGICAL_NEQV))
        | ((EQUAL <= kind) & (kind <= GREATER_EQUAL))
        | ((COMMA <= kind) & (kind <= COMMA))
}

pub fn is_binary_or_assignment_operator(language: u8, kind: u8) -> bool
    ensures { result ≡ is_binary_or_assignment_operator language kind }
{
    if language == FORTRAN {
        return is_fortran_operator(kind);
    }
    is_c_family_operator(kind)
}
