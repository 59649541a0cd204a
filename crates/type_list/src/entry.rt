// The entry.

ghost use Rattle.std.specs.Prelude.{◌≡◌, length};
ghost use Rattle.type_name.specs.EntrySays.{RowReady, TreeFits, settled};
ghost use Rattle.type_list.specs.ListAnswers.{list_answer, list_buffer};
ghost use Rattle.type_list.specs.ListSays.{FromTokens, ListTold, as_one};

use crate::answer::{ListAccepted, ListAnswer, ListRefused};
use crate::parts::read_parts;
use rows::answer::{Accepted, Refused};
use rows::head::Head;
use rows::row::MOST_TOKENS;
use type_name::buffer::settle;
use type_name::file_row::{FileRow, read_file};

// The trees of an accepted list stand in front of the buffer as one tree's nodes would. No twin of `settle_match`, which leaves the buffer as it is where
// a rule wins.
fn settle_list(tree: &mut [u32], answer: ListAnswer)
    requires { TreeFits (as_one answer) tree.old }
    ensures { tree.new ≡ settled tree.old (as_one answer) }
{
    match answer {
        Ok(
            ListAccepted {
                parts: _,
                nodes,
                steps,
            },
        ) => settle(tree, Ok(Accepted { nodes, steps })),
        Err(
            ListRefused {
                error,
                steps,
                part: _,
            },
        ) => settle(tree, Err(Refused { error, steps })),
    }
}

// The answer to a list for whose row the tree buffer has room.
fn answer_list(head: Head, kinds: &[u8], words: &[u8], tree: &mut [u32]) -> ListAnswer
    requires { RowReady kinds.now words.now tree.old × FromTokens kinds.now words.now }
    ensures { ListTold head kinds.now words.now tree.old result tree.new }
{
    let answer = read_parts(head, kinds, words, tree);
    settle_list(tree, answer);
    answer
}

// Reads several type names with commas between them: `file` is a head record and token records, `tree` gets the trees' node records, one tree after
// the other, and then zeros.
pub fn parse_type_list(file: &[u8], tree: &mut [u32]) -> ListAnswer
    ensures answered { result ≡ list_answer file.now (length tree.old) }
    ensures buffered { tree.new ≡ list_buffer file.now tree.old }
{
    let mut kinds = [0u8; MOST_TOKENS];
    let mut words = [0u8; MOST_TOKENS];
    let room = tree.len();
    let FileRow { head, count } = read_file(file, room, &mut kinds, &mut words)?;
    answer_list(head, &kinds[..count], &words[..count], tree)
}
