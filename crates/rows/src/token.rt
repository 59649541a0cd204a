// Token records: document 01, "Token record".

ghost use Rattle.std.specs.Prelude.{◌≡◌, ◌+◌, ◌<◌, ◌≤◌, drop, length, take};
ghost use Rattle.rows.specs.Format.{bytes_of, token_length};
ghost use Rattle.rows.specs.Records.{found, in_range, kind_at, length_at, length_fits, little_endian, span_at, word_fits, word_in};

use crate::bytes::{eight_bytes, four_bytes, two_bytes};
use crate::format::{AT_SPAN, Format, SpanWidth, span_bytes, token_length};
use crate::head::AT_KIND;
use crate::kinds;

pub const LONGEST_WORD: usize = 255;

const LEAST_WORD_BYTE: u8 = 33;

const GREATEST_WORD_BYTE: u8 = 126;

// A well-formed token record: its kind and its length.
#[derive(Clone, Copy)]
pub struct TokenRecord {
    pub kind: u8,
    pub length: usize,
}

// Every byte may stand in a word. All are tested, even behind one that may not: so the compiler tests many at once.
fn all_fit(word: &[u8]) -> bool
    ensures { result ≡ in_range word.now }
{
    let mut fits = true;
    for &byte in word {
        fits = fits & (LEAST_WORD_BYTE <= byte) & (byte <= GREATEST_WORD_BYTE);
    }
    fits
}

// Every byte may stand in a word. A first and a last group of a fixed length cover most words and may overlap: the compiler makes no loop of them.
pub fn is_word(word: &[u8]) -> bool
    ensures { result ≡ in_range word.now }
{
    let size = word.len();
    if size < 4 {
        return all_fit(word);
    }
    if size < 8 {
        return all_fit(&word[..4]) & all_fit(&word[size - 4..]);
    }
    if size <= 16 {
        return all_fit(&word[..8]) & all_fit(&word[size - 8..]);
    }
    let eights = size - size % 8;
    all_fit(&word[..eights]) & all_fit(&word[size - 8..])
}

// The number of a span at a byte offset.
fn span_number(file: &[u8], at: usize, width: SpanWidth) -> usize
    requires { at + bytes_of width ≤ length file.now }
    ensures { result ≡ little_endian (bytes_of width) file.now at }
{
    match width {
        SpanWidth::Four => four_bytes(file, at),
        SpanWidth::Eight => eight_bytes(file, at),
    }
}

// Where a token stands in the source that its row was made from.
#[derive(Clone, Copy)]
pub struct SourceSpan {
    pub start: usize,
    pub end: usize,
}

// The span of the token record at a byte offset.
pub fn span(format: Format, file: &[u8], place: usize) -> SourceSpan
    requires { place + token_length format ≤ length file.now }
    ensures { result ≡ span_at format file.now place }
{
    let width = format.span_width;
    let first = place + AT_SPAN;
    let start = span_number(file, first, width);
    let end = span_number(file, first + span_bytes(width), width);
    SourceSpan { start, end }
}

// The record at a byte offset has a word of 1 to 255 bytes that are in range; `size` is its length.
fn word_fits(format: Format, file: &[u8], at: usize, size: usize) -> bool
    requires { (at + token_length format ≤ length file.now) × (size ≡ length_at format file.now at) }
    ensures { result ≡ word_fits format file.now at }
{
    let plain = token_length(format);
    if size <= plain {
        return false;
    }
    if plain + LONGEST_WORD < size {
        return false;
    }
    if file.len() - at < size {
        return false;
    }
    let end = at + size;
    let begin = at + plain;
    is_word(&file[begin..end])
}

// The record at a byte offset, of this kind and size, is as long as its kind asks.
fn length_fits(format: Format, file: &[u8], at: usize, kind: usize, size: usize) -> bool
    requires { (at + token_length format ≤ length file.now) × (kind ≡ kind_at format file.now at) × (size ≡ length_at format file.now at) }
    ensures { result ≡ length_fits format file.now at }
{
    if kind == (kinds::IDENTIFIER as usize) {
        return word_fits(format, file, at, size);
    }
    size == token_length(format)
}

// The token record at any byte offset, if a well-formed one stands there.
pub fn token_at(format: Format, file: &[u8], at: usize) -> Option<TokenRecord>
    ensures { result ≡ found format file.now at }
{
    let plain = token_length(format);
    if file.len() < plain {
        return None;
    }
    if file.len() - plain < at {
        return None;
    }
    let kind = two_bytes(file, at + AT_KIND);
    if (kinds::END as usize) < kind {
        return None;
    }
    let span = span(format, file, at);
    if span.end < span.start {
        return None;
    }
    let length = two_bytes(file, at);
    if length_fits(format, file, at, kind, length) {
        return Some(TokenRecord {
            kind: kind as u8,
            length,
        });
    }
    None
}

// The word of the token record at any byte offset, as that part of the caller's file; empty where no word stands.
pub fn word(format: Format, file: &[u8], place: usize) -> &[u8]
    ensures { result.now ≡ word_in format file.now place (found format file.now place) }
{
    let found = token_at(format, file, place);
    let Some(TokenRecord { kind: _, length }) = found else {
        return &file[..0];
    };
    let begin = place + token_length(format);
    let end = place + length;
    &file[begin..end]
}
