// The numbers of a file's format that requests of document 02 change, as one value.

ghost use Rattle.std.specs.Prelude.{◌≡◌, ◌+◌, ◌*◌, ◌≤◌};
ghost use Rattle.rows.specs.Format.{archive_standards, at_span, bytes_of, format, newer_standards, old_format, token_length};
ghost use Rattle.rows.specs.declared.format.SpanWidth.TheVariants.{Eight};

use crate::languages;

// The bytes of a span's start, and of its end.
#[derive(Clone, Copy)]
pub enum SpanWidth {
    Four,
    Eight,
}

// What a standard's number outside the declared order means in each language.
#[derive(Clone, Copy)]
pub struct StandIn {
    pub c: u8,
    pub cpp: u8,
    pub fortran: u8,
}

#[derive(Clone, Copy)]
pub struct Format {
    pub head_kind: usize,
    pub span_width: SpanWidth,
    pub file_limit: u32,
    pub greatest_flag: u8,
    pub means_254: Option<StandIn>,
    pub means_255: Option<StandIn>,
}

pub const AT_SPAN: usize = 4;

// What 254 means, and 255 in document 01's format.
fn archive_standards() -> StandIn
    ensures { result ≡ archive_standards }
{
    StandIn {
        c: languages::C18,
        cpp: languages::CPP17,
        fortran: languages::FORTRAN2018,
    }
}

// What 255 means.
fn newer_standards() -> StandIn
    ensures { result ≡ newer_standards }
{
    StandIn {
        c: languages::C23,
        cpp: languages::CPP23,
        fortran: languages::FORTRAN2023,
    }
}

// The format that every entry reads.
pub fn current() -> Format
    ensures { result ≡ format }
{
    Format {
        head_kind: 261,
        span_width: SpanWidth::Eight,
        file_limit: 131072,
        greatest_flag: 1,
        means_254: Some(archive_standards()),
        means_255: Some(newer_standards()),
    }
}

// Document 01's format, which only conversions know.
pub fn old() -> Format
    ensures { result ≡ old_format }
{
    Format {
        head_kind: 256,
        span_width: SpanWidth::Four,
        file_limit: 65536,
        greatest_flag: 1,
        means_254: None,
        means_255: Some(archive_standards()),
    }
}

// No `From`, which would not say that the number is one of bytes.
pub fn span_bytes(width: SpanWidth) -> usize
    ensures value { result ≡ bytes_of width }
    ensures small { result ≤ bytes_of Eight }
{
    match width {
        SpanWidth::Four => 4,
        SpanWidth::Eight => 8,
    }
}

// The length of a token record without a word.
pub fn token_length(format: Format) -> usize
    ensures value { result ≡ token_length format }
    ensures small { result ≤ at_span + 2 * bytes_of Eight }
{
    let width = format.span_width;
    AT_SPAN + 2 * span_bytes(width)
}
