// The row of a file, decoded once into lent arrays.

ghost use Rattle.std.specs.Prelude.{◌≡◌};
ghost use Rattle.rows.specs.RowRead.{Reads, ReadsRecords, Room};

use crate::answer::TypeNameError;
use crate::format::{Format, token_length};
use crate::token::{TokenRecord, token_at};
use crate::words::number_of_word;

// Refusal 5: a record more begins.
pub const MOST_TOKENS: usize = 1024;

// How many records were read, and where those after them begin.
#[derive(Clone, Copy)]
pub struct RecordsRead {
    pub count: usize,
    pub next: usize,
}

// The byte offset of the first record that is malformed.
#[derive(Clone, Copy)]
pub struct MalformedRecord {
    pub offset: usize,
}

// The token records from a byte offset on, at most so many: each token's kind, word number and byte offset. Three arrays, lent by the caller, and no list
// of tokens: the library has no heap, and the checks look through each by itself.
pub fn read_records(
    format: Format,
    file: &[u8],
    begin: usize,
    most: usize,
    kinds: &mut [u8],
    words: &mut [u8],
    places: &mut [u32],
) -> Result<RecordsRead, MalformedRecord>
    requires { Room file.now most kinds.old words.old places.old }
    ensures { ReadsRecords format file.now begin most kinds.old words.old places.old result kinds.new words.new places.new }
{
    let plain = token_length(format);
    let mut at = begin;
    let mut count: usize = 0;
    while at < file.len() {
        if count == most {
            return Ok(RecordsRead { count, next: at });
        }
        let found = token_at(format, file, at);
        let Some(TokenRecord { kind, length }) = found else {
            return Err(MalformedRecord { offset: at });
        };
        let word = at + plain;
        let next = at + length;
        kinds[count] = kind;
        words[count] = number_of_word(&file[word..next]);
        places[count] = at as u32;
        count += 1;
        at = next;
    }
    Ok(RecordsRead { count, next: at })
}

// The row from a byte offset to the file's end, of at most so many tokens.
pub fn read_row(
    format: Format,
    file: &[u8],
    begin: usize,
    most: usize,
    kinds: &mut [u8],
    words: &mut [u8],
    places: &mut [u32],
) -> Result<usize, TypeNameError>
    requires { Room file.now most kinds.old words.old places.old }
    ensures { Reads format file.now begin most kinds.old words.old places.old result kinds.new words.new places.new }
{
    let read = read_records(format, file, begin, most, kinds, words, places);
    match read {
        Err(MalformedRecord { offset }) => Err(TypeNameError::InvalidRecord {
            offset: offset as u32,
        }),
        Ok(RecordsRead { count, next }) => {
            if next < file.len() {
                return Err(TypeNameError::TooManyRecords);
            }
            Ok(count)
        }
    }
}
