// The entry.

ghost use Rattle.std.specs.Prelude.{◌≡◌, length};
ghost use Rattle.named_answers.specs.NamedAnswers.{answer_named, buffer_named};
ghost use Rattle.named_answers.specs.NamedAnswersSay.{AnswersNamed, RowHeld};
ghost use Rattle.named_answers.specs.NamedPromises.{NamedPromised};

use crate::tree::read_checked;
use rows::answer::Answer;
use rows::head::Head;
use rows::row::MOST_TOKENS;
use type_name::buffer::settle;
use type_name::file_row::{FileRow, read_file};

// The answer to a row for which the tree buffer has room.
fn answer_named(
    head: Head,
    file: &[u8],
    kinds: &[u8],
    words: &[u8],
    names: &[u8],
    tree: &mut [u32],
) -> Answer
    requires { RowHeld file.now kinds.now words.now tree.old }
    ensures { AnswersNamed head file.now kinds.now words.now names.now tree.old result tree.new }
{
    let answer = read_checked(head, file, kinds, words, names, tree);
    settle(tree, answer);
    answer
}

// Reads a type name of C++ whose template names are given: `file` is a head record and token records, `names` the names' token records; `tree` gets the
// tree's node records and then zeros.
pub fn parse_named_type_name(file: &[u8], names: &[u8], tree: &mut [u32]) -> Answer
    ensures answered { result ≡ answer_named file.now names.now (length tree.old) }
    ensures buffered { tree.new ≡ buffer_named file.now names.now tree.old }
    ensures promised { NamedPromised file.now names.now tree.old result tree.new }
{
    let mut kinds = [0u8; MOST_TOKENS];
    let mut words = [0u8; MOST_TOKENS];
    let room = tree.len();
    let FileRow { head, count } = read_file(file, room, &mut kinds, &mut words)?;
    answer_named(head, file, &kinds[..count], &words[..count], names, tree)
}
