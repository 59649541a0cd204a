// What a conversion tests of the file handed in, before it writes a byte: refusals 1 to 5.

ghost use Rattle.std.specs.Prelude.{◌≡◌, ◌<◌, ◌^◌, length};
ghost use Rattle.convert.specs.Fields.{fields_of};
ghost use Rattle.convert.specs.ConvertSays.{checked_in, row_fields};

use rows::answer::TypeNameError;
use rows::format::Format;
use rows::head::{HEAD_LENGTH, read_head};
use rows::row::MOST_TOKENS;
use rows::token::{TokenRecord, span, token_at};

// A file that passes: how many tokens it has, and whether every span ends below 2^32.
#[derive(Clone, Copy)]
pub struct Sound {
    pub count: usize,
    pub narrow: bool,
}

// A span's end from here on does not fit four bytes.
const FOUR_BYTES: usize = 4294967296;

// Refusals 5 and 4.
fn check_records(format: Format, file: &[u8]) -> Result<Sound, TypeNameError>
    requires { length file.now < 2 ^ 32 }
    ensures { result ≡ checked_in (row_fields format file.now) }
{
    let mut at = HEAD_LENGTH;
    let mut count: usize = 0;
    let mut narrow = true;
    while at < file.len() {
        if count == MOST_TOKENS {
            return Err(TypeNameError::TooManyRecords);
        }
        let found = token_at(format, file, at);
        let Some(TokenRecord { kind: _, length }) = found else {
            return Err(TypeNameError::InvalidRecord { offset: at as u32 });
        };
        let span = span(format, file, at);
        narrow = narrow & (span.end < FOUR_BYTES);
        count += 1;
        at += length;
    }
    Ok(Sound { count, narrow })
}

// The places File and Records of document 01's table, by one walk of the file.
pub fn check_file(format: Format, file: &[u8]) -> Result<Sound, TypeNameError>
    requires { format.file_limit < 2 ^ 32 }
    ensures { result ≡ checked_in (fields_of format file.now) }
{
    read_head(format, file)?;
    check_records(format, file)
}
