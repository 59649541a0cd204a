// The entry.

ghost use Rattle.std.specs.Prelude.{◌≡◌};
ghost use Rattle.type_name.specs.FileRow.{passes};
ghost use Rattle.type_name.specs.Answers.{answer_of, answer_in, buffer_in};
ghost use Rattle.type_name.specs.EntrySays.{RowReady};
ghost use Rattle.type_name.specs.Promises.{Answered, BracketsPaired, Buffered, Nested, Numbered, Stable, TreeDefined, WrittenOut};

use crate::buffer::settle;
use crate::file_row::{FileRow, read_file};
use crate::tree::read_checked;
use rows::answer::Answer;
use rows::head::Head;
use rows::row::MOST_TOKENS;

// The answer to a row for which the tree buffer has room.
pub fn answer_row(head: Head, kinds: &[u8], words: &[u8], tree: &mut [u32]) -> Answer
    requires { RowReady kinds.now words.now tree.old }
    ensures answered { result ≡ answer_in (passes (answer_of head.language head.standard head.flag kinds.now words.now head.allowance)) }
    ensures buffered { tree.new ≡ buffer_in tree.old (passes (answer_of head.language head.standard head.flag kinds.now words.now head.allowance)) }
{
    let answer = read_checked(head, kinds, words, tree);
    settle(tree, answer);
    answer
}

// Reads a type name: `file` is a head record and token records, `tree` gets the tree's node records and then zeros.
pub fn parse_type_name(file: &[u8], tree: &mut [u32]) -> Answer
    ensures answered { Answered file.now tree.old result }
    ensures numbered { Numbered file.now tree.old result }
    ensures buffered { Buffered file.now tree.old tree.new }
    ensures tree_defined { TreeDefined file.now tree.old result tree.new }
    ensures nested { Nested file.now result tree.new }
    ensures brackets_paired { BracketsPaired file.now result tree.new }
    ensures written_out { WrittenOut file.now result tree.new }
    ensures stable { Stable file.now result tree.new }
{
    let mut kinds = [0u8; MOST_TOKENS];
    let mut words = [0u8; MOST_TOKENS];
    let room = tree.len();
    let FileRow { head, count } = read_file(file, room, &mut kinds, &mut words)?;
    answer_row(head, &kinds[..count], &words[..count], tree)
}
