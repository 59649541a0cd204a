// The number of a word: a word is compared with the few known words of its length that begin as it does. A function for each length: to go through one
// table of all known words takes 4 to 5 times as long.

ghost use Rattle.std.specs.Prelude.{◌≡◌, ◌+◌, ◌≤◌, get_or, length, if◌then◌else◌};
ghost use Rattle.rows.specs.Words.{lower, no_word, other_case, same_exactly, same_ignoring_case, word_number};
ghost use Rattle.rows.specs.WordSearch.{compared, known_words};

use crate::word_numbers;

#[derive(Clone, Copy)]
pub enum Comparison {
    Exact,
    OtherCase,
    Different,
}

fn lower_case(byte: u8) -> u8
    ensures { result ≡ lower byte }
{
    byte.to_ascii_lowercase()
}

// A word beside a known one of the same length.
fn compare(word: &[u8], known: &[u8]) -> Comparison
    requires { length known.now ≡ length word.now }
    ensures { result ≡ compared word.now known.now }
{
    let mut exact = true;
    for i in 0..word.len() {
        let byte = word[i];
        let other = known[i];
        if byte == other {
            continue;
        }
        if lower_case(byte) != lower_case(other) {
            return Comparison::Different;
        }
        exact = false;
    }
    if exact {
        return Comparison::Exact;
    }
    Comparison::OtherCase
}

// The number of a known word of the same length if the word is that one, exactly or in another case.
fn if_is(word: &[u8], known: &[u8], number: u8) -> u8
    requires { (length known.now ≡ length word.now) × (number ≤ known_words) }
    ensures { result ≡ (if same_exactly word.now known.now then number else if same_ignoring_case word.now known.now then number + other_case else no_word) }
{
    let comparison = compare(word, known);
    match comparison {
        Comparison::Exact => number,
        Comparison::OtherCase => number + word_numbers::OTHER_CASE,
        Comparison::Different => word_numbers::NO_WORD,
    }
}

// The number of a word of 3 bytes that begins with `first` in lower case.
fn of_3(word: &[u8], first: u8) -> u8
    requires { (length word.now ≡ 3) × (first ≡ lower (get_or word.now 0 0)) }
    ensures { result ≡ word_number word.now }
{
    match first {
        b'i' => if_is(word, b"int", word_numbers::INT),
        _ => word_numbers::NO_WORD,
    }
}

// The same, of 4 bytes.
fn of_4(word: &[u8], first: u8) -> u8
    requires { (length word.now ≡ 4) × (first ≡ lower (get_or word.now 0 0)) }
    ensures { result ≡ word_number word.now }
{
    match first {
        b'v' => if_is(word, b"void", word_numbers::VOID),
        b'b' => if_is(word, b"bool", word_numbers::BOOL),
        b'c' => if_is(word, b"char", word_numbers::CHAR),
        b'l' => if_is(word, b"long", word_numbers::LONG),
        b'e' => if_is(word, b"enum", word_numbers::ENUM),
        b't' => if_is(word, b"type", word_numbers::TYPE),
        _ => word_numbers::NO_WORD,
    }
}

// The same, of 5 bytes.
fn of_5(word: &[u8], first: u8) -> u8
    requires { (length word.now ≡ 5) × (first ≡ lower (get_or word.now 0 0)) }
    ensures { result ≡ word_number word.now }
{
    match first {
        b'_' => if_is(word, b"_Bool", word_numbers::C_BOOL),
        b'f' => if_is(word, b"float", word_numbers::FLOAT),
        b's' => if_is(word, b"short", word_numbers::SHORT),
        b'c' => {
            let found = if_is(word, b"const", word_numbers::CONST);
            if found != word_numbers::NO_WORD {
                return found;
            }
            if_is(word, b"class", word_numbers::CLASS)
        }
        b'u' => if_is(word, b"union", word_numbers::UNION),
        _ => word_numbers::NO_WORD,
    }
}

// The same, of 6 bytes.
fn of_6(word: &[u8], first: u8) -> u8
    requires { (length word.now ≡ 6) × (first ≡ lower (get_or word.now 0 0)) }
    ensures { result ≡ word_number word.now }
{
    match first {
        b'd' => if_is(word, b"double", word_numbers::DOUBLE),
        b's' => {
            let found = if_is(word, b"signed", word_numbers::SIGNED);
            if found != word_numbers::NO_WORD {
                return found;
            }
            if_is(word, b"struct", word_numbers::STRUCT)
        }
        b't' => if_is(word, b"typeof", word_numbers::TYPEOF),
        _ => word_numbers::NO_WORD,
    }
}

// The same, of 7 bytes.
fn of_7(word: &[u8], first: u8) -> u8
    requires { (length word.now ≡ 7) × (first ≡ lower (get_or word.now 0 0)) }
    ensures { result ≡ word_number word.now }
{
    match first {
        b'w' => if_is(word, b"wchar_t", word_numbers::WCHAR_T),
        b'c' => {
            let found = if_is(word, b"char8_t", word_numbers::CHAR8_T);
            if found != word_numbers::NO_WORD {
                return found;
            }
            if_is(word, b"complex", word_numbers::COMPLEX)
        }
        b'_' => {
            let found = if_is(word, b"_Atomic", word_numbers::ATOMIC);
            if found != word_numbers::NO_WORD {
                return found;
            }
            if_is(word, b"_BitInt", word_numbers::BIT_INT)
        }
        _ => word_numbers::NO_WORD,
    }
}

// The same, of 8 bytes.
fn of_8(word: &[u8], first: u8) -> u8
    requires { (length word.now ≡ 8) × (first ≡ lower (get_or word.now 0 0)) }
    ensures { result ≡ word_number word.now }
{
    match first {
        b'c' => {
            let found = if_is(word, b"char16_t", word_numbers::CHAR16_T);
            if found != word_numbers::NO_WORD {
                return found;
            }
            if_is(word, b"char32_t", word_numbers::CHAR32_T)
        }
        b'u' => if_is(word, b"unsigned", word_numbers::UNSIGNED),
        b'_' => {
            let found = if_is(word, b"_Complex", word_numbers::C_COMPLEX);
            if found != word_numbers::NO_WORD {
                return found;
            }
            if_is(word, b"__typeof", word_numbers::GNU_TYPEOF)
        }
        b'v' => if_is(word, b"volatile", word_numbers::VOLATILE),
        b'r' => if_is(word, b"restrict", word_numbers::RESTRICT),
        b'n' => if_is(word, b"noexcept", word_numbers::NOEXCEPT),
        b'd' => if_is(word, b"decltype", word_numbers::DECLTYPE),
        b't' => if_is(word, b"typename", word_numbers::TYPENAME),
        _ => word_numbers::NO_WORD,
    }
}

// The same, of 9 bytes.
fn of_9(word: &[u8], first: u8) -> u8
    requires { (length word.now ≡ 9) × (first ≡ lower (get_or word.now 0 0)) }
    ensures { result ≡ word_number word.now }
{
    match first {
        b'p' => if_is(word, b"precision", word_numbers::PRECISION),
        _ => word_numbers::NO_WORD,
    }
}

// The same, of 10 bytes.
fn of_10(word: &[u8], first: u8) -> u8
    requires { (length word.now ≡ 10) × (first ≡ lower (get_or word.now 0 0)) }
    ensures { result ≡ word_number word.now }
{
    match first {
        b'_' => {
            let found = if_is(word, b"_Decimal32", word_numbers::DECIMAL32);
            if found != word_numbers::NO_WORD {
                return found;
            }
            let found2 = if_is(word, b"_Decimal64", word_numbers::DECIMAL64);
            if found2 != word_numbers::NO_WORD {
                return found2;
            }
            let found3 = if_is(word, b"_Imaginary", word_numbers::IMAGINARY);
            if found3 != word_numbers::NO_WORD {
                return found3;
            }
            let found4 = if_is(word, b"__restrict", word_numbers::GNU_RESTRICT);
            if found4 != word_numbers::NO_WORD {
                return found4;
            }
            if_is(word, b"__typeof__", word_numbers::GNU_TYPEOF_CLOSED)
        }
        _ => word_numbers::NO_WORD,
    }
}

// The same, of 11 bytes.
fn of_11(word: &[u8], first: u8) -> u8
    requires { (length word.now ≡ 11) × (first ≡ lower (get_or word.now 0 0)) }
    ensures { result ≡ word_number word.now }
{
    match first {
        b'_' => if_is(word, b"_Decimal128", word_numbers::DECIMAL128),
        _ => word_numbers::NO_WORD,
    }
}

// The same, of 12 bytes.
fn of_12(word: &[u8], first: u8) -> u8
    requires { (length word.now ≡ 12) × (first ≡ lower (get_or word.now 0 0)) }
    ensures { result ≡ word_number word.now }
{
    match first {
        b'_' => if_is(word, b"__restrict__", word_numbers::GNU_RESTRICT_CLOSED),
        _ => word_numbers::NO_WORD,
    }
}

// The same, of 13 bytes.
fn of_13(word: &[u8], first: u8) -> u8
    requires { (length word.now ≡ 13) × (first ≡ lower (get_or word.now 0 0)) }
    ensures { result ≡ word_number word.now }
{
    match first {
        b't' => if_is(word, b"typeof_unqual", word_numbers::TYPEOF_UNQUAL),
        _ => word_numbers::NO_WORD,
    }
}

// The same, of 16 bytes.
fn of_16(word: &[u8], first: u8) -> u8
    requires { (length word.now ≡ 16) × (first ≡ lower (get_or word.now 0 0)) }
    ensures { result ≡ word_number word.now }
{
    match first {
        b't' => if_is(word, b"transaction_safe", word_numbers::TRANSACTION_SAFE),
        _ => word_numbers::NO_WORD,
    }
}

// The number of a word: n for known word n, n + 128 for known word n in another case, 0 for every other word.
pub fn number_of_word(word: &[u8]) -> u8
    ensures { result ≡ word_number word.now }
{
    let size = word.len();
    if size == 0 {
        return word_numbers::NO_WORD;
    }
    let first = lower_case(word[0]);
    match size {
        3 => of_3(word, first),
        4 => of_4(word, first),
        5 => of_5(word, first),
        6 => of_6(word, first),
        7 => of_7(word, first),
        8 => of_8(word, first),
        9 => of_9(word, first),
        10 => of_10(word, first),
        11 => of_11(word, first),
        12 => of_12(word, first),
        13 => of_13(word, first),
        16 => of_16(word, first),
        _ => word_numbers::NO_WORD,
    }
}
