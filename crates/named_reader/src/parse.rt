// The reading of a row.

ghost use Rattle.std.specs.Prelude.{◌*◌, ◌≤◌, length};
ghost use Rattle.rows.specs.Format.{most_tokens};
ghost use Rattle.reader.specs.Nodes.{numbers_per_token};
ghost use Rattle.reader.specs.ReaderSays.{Parses};
ghost use Rattle.named_reader.specs.NamedReading.{named_reading};
ghost use Rattle.named_reader.specs.NamedSays.{Ends, Held};

use crate::frames::{NamedReader, in_list};
use crate::tokens::take_token;
use reader::parser::{ParseError, Parsed, Stop, Tree};
use rows::answer::TypeNameError;

// What is read once every token has been taken.
fn end_row(tree: &[u32], reader: NamedReader, allowance: u32) -> Parsed
    requires { Held tree.now reader × (reader.left ≤ allowance) }
    ensures { Ends tree.now reader allowance result }
{
    let steps = allowance - reader.left;
    if reader.inner == 0 {
        return Ok(Tree {
            nodes: reader.nodes,
            steps,
        });
    }
    if in_list(tree, reader) {
        return Err(ParseError::Refused {
            error: TypeNameError::EmptyOrUnclosedList,
            steps,
        });
    }
    Err(ParseError::Refused {
        error: TypeNameError::UnterminatedGroup,
        steps,
    })
}

// Reads a row: its tree at the front of `tree`, or why it has none. `named`: of each token, whether it is one of the names.
pub fn parse_named(kinds: &[u8], named: &[bool], tree: &mut [u32], allowance: u32) -> Parsed
    requires { (length kinds.now ≤ most_tokens) × (numbers_per_token * length kinds.now ≤ length tree.old) }
    ensures { Parses kinds.now allowance (named_reading named.now kinds.now) result tree.new }
{
    let mut reader = NamedReader {
        nodes: 0,
        inner: 0,
        nesting: 0,
        left: allowance,
    };
    for (at, &kind) in kinds.iter().enumerate() {
        match take_token(named, tree, reader, kind, at) {
            Ok(next) => reader = next,
            Err(Stop::Refused(error, left)) => {
                return Err(ParseError::Refused {
                    error,
                    steps: allowance - left,
                });
            }
            Err(Stop::Spent) => return Err(ParseError::AllowancePassed),
        }
    }
    end_row(tree, reader, allowance)
}
