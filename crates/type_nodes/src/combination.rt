// Which builtin type words go together: `seen` says how often each builtin type word and each qualifier was seen, by word number.

ghost use Rattle.std.specs.Prelude.{◌≡◌, ◌<◌, eqb, if◌then◌else◌};
ghost use Rattle.rows.specs.Words.{long};
ghost use Rattle.type_nodes.specs.Combination.{times, has, how_many, builtin_words, too_often, validate_c_bit_int_sign, validate_c_builtin_combination, counted_words};
ghost use Rattle.type_nodes.specs.RepresentedSpecifiers.{HaveCounts};

use rows::word_numbers::{
    BOOL, C_BOOL, C_COMPLEX, CHAR, CHAR8_T, CHAR16_T, CHAR32_T, DECIMAL32, DECIMAL64, DECIMAL128,
    DOUBLE, FLOAT, IMAGINARY, INT, LONG, SHORT, SIGNED, UNSIGNED, VOID, WCHAR_T,
};

// Builtin type words and qualifiers, and no other words, have numbers below this.
pub const COUNTED_WORDS: usize = 29;

const BUILTIN_TYPE_WORDS: [u8; 20] = [
    VOID, BOOL, C_BOOL, CHAR, WCHAR_T, CHAR8_T, CHAR16_T, CHAR32_T, SHORT, INT, LONG, SIGNED,
    UNSIGNED, FLOAT, DOUBLE, C_COMPLEX, IMAGINARY, DECIMAL32, DECIMAL64, DECIMAL128,
];

const SCALAR_BASES: [u8; 14] = [
    VOID, BOOL, C_BOOL, CHAR, WCHAR_T, CHAR8_T, CHAR16_T, CHAR32_T, INT, FLOAT, DOUBLE, DECIMAL32,
    DECIMAL64, DECIMAL128,
];

fn times(seen: &[u32; COUNTED_WORDS], word: u8) -> u32
    requires { word < counted_words }
    ensures { result ≡ times word seen.now }
{
    seen[word as usize]
}

pub fn has(seen: &[u32; COUNTED_WORDS], word: u8) -> bool
    requires { word < counted_words }
    ensures { result ≡ has word seen.now }
{
    0 < times(seen, word)
}

// How many of these words were seen.
fn how_many(seen: &[u32; COUNTED_WORDS], words: &[u8]) -> usize
    requires { HaveCounts words.now }
    ensures { result ≡ how_many words.now seen.now }
{
    let mut met = 0;
    for &word in words {
        if has(seen, word) {
            met += 1;
        }
    }
    met
}

// How often a word may stand.
fn most(word: u8) -> u32
    ensures { result ≡ (if eqb word long then 2 else 1) }
{
    if word == LONG {
        return 2;
    }
    1
}

fn too_often(seen: &[u32; COUNTED_WORDS], words: &[u8]) -> bool
    requires { HaveCounts words.now }
    ensures { result ≡ too_often words.now seen.now }
{
    for &word in words {
        if most(word) < times(seen, word) {
            return true;
        }
    }
    false
}

// `builtin_words.len()`
fn builtin_words(seen: &[u32; COUNTED_WORDS]) -> usize
    ensures { result ≡ builtin_words seen.now }
{
    let words = BUILTIN_TYPE_WORDS;
    how_many(seen, &words)
}

pub fn validate_c_bit_int_sign(seen: &[u32; COUNTED_WORDS]) -> bool
    ensures { result ≡ validate_c_bit_int_sign seen.now }
{
    let words = builtin_words(seen);
    (words == 0) | ((words == 1) & ((times(seen, SIGNED) == 1) | (times(seen, UNSIGNED) == 1)))
}

// `words` serves twice: made twice, it would stand twice in the frame of the checks that call one another.
pub fn validate_c_builtin_combination(seen: &[u32; COUNTED_WORDS]) -> bool
    ensures { result ≡ validate_c_builtin_combination seen.now }
{
    let words = BUILTIN_TYPE_WORDS;
    let bases = SCALAR_BASES;
    let short = has(seen, SHORT);
    let long = has(seen, LONG);
    let signed = has(seen, SIGNED);
    let unsigned = has(seen, UNSIGNED);
    !too_often(seen, &words)
        & !(signed & unsigned)
        & !(short & long)
        & (how_many(seen, &bases) <= 1)
        & !(has(seen, VOID) & !(how_many(seen, &words) == 1))
        & !(has(seen, FLOAT) & (short | long | signed | unsigned))
        & !(has(seen, DOUBLE) & (short | signed | unsigned | (1 < times(seen, LONG))))
        & !(has(seen, CHAR) & (short | long))
}
