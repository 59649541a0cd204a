// A file's head and row, read into lent arrays: the places File, Records and Buffer of document 01's table.

ghost use Rattle.std.specs.Prelude.{◌≡◌};
ghost use Rattle.type_name.specs.EntrySays.{Arrays, HeadRead, ReadsFile};

use reader::nodes::NUMBERS_PER_TOKEN;
use rows::answer::TypeNameError;
use rows::format::current;
use rows::head::{HEAD_LENGTH, Head, read_head};
use rows::row::{MOST_TOKENS, read_row};

#[derive(Clone, Copy)]
pub struct FileRow {
    pub head: Head,
    pub count: usize,
}

// The row of a file with this head, for a tree buffer of `room` numbers.
fn read_records(
    file: &[u8],
    room: usize,
    head: Head,
    kinds: &mut [u8],
    words: &mut [u8],
) -> Result<FileRow, TypeNameError>
    requires { HeadRead file.now head × Arrays kinds.old words.old }
    ensures { ReadsFile file.now room result kinds.new words.new }
{
    let mut places = [0u32; MOST_TOKENS];
    let count = read_row(
        current(),
        file,
        HEAD_LENGTH,
        MOST_TOKENS,
        kinds,
        words,
        &mut places,
    )?;
    if room < NUMBERS_PER_TOKEN * count {
        return Err(TypeNameError::ShortBuffer);
    }
    Ok(FileRow { head, count })
}

// Every entry reads its file by this: each token's kind and word number stand in front of the arrays.
pub fn read_file(
    file: &[u8],
    room: usize,
    kinds: &mut [u8],
    words: &mut [u8],
) -> Result<FileRow, TypeNameError>
    requires { Arrays kinds.old words.old }
    ensures { ReadsFile file.now room result kinds.new words.new }
{
    let head = read_head(current(), file)?;
    read_records(file, room, head, kinds, words)
}
