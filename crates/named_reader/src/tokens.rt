// What comes of a token.

ghost use Rattle.std.specs.Prelude.{◌≡◌, ◌+◌, ◌<◌};
ghost use Rattle.reader.specs.Nodes.{numbers_bound};
ghost use Rattle.named_reader.specs.NamedReading.{after_name, at_closer, at_comma, at_greater, at_shift, no_bracket, take_token};
ghost use Rattle.named_reader.specs.NamedSays.{Does, Held, RoomFor};

use crate::frames::{
    NamedReader, begin_group, begin_list, close_group, close_list, in_list, next_argument,
    take_plain,
};
use reader::nodes::{ARGUMENT_NODE, node_kind};
use reader::parser::Stop;
use reader::tables::group_kind;
use rows::answer::{Delimiter, TypeNameError};
use rows::kinds;

// The token before is one of the names.
fn after_name(named: &[bool], at: usize) -> bool
    ensures { result ≡ after_name named.now at }
{
    if at == 0 {
        return false;
    }
    let before = at - 1;
    if before < named.len() {
        return named[before];
    }
    false
}

fn at_greater(tree: &mut [u32], reader: NamedReader, at: usize) -> Result<NamedReader, Stop>
    requires { Held tree.old reader × RoomFor tree.old reader.nodes 1 × (at < numbers_bound) }
    ensures { Does tree.old reader tree.new result (λ s. at_greater at s.frames s) }
{
    if !in_list(tree, reader) {
        return take_plain(tree, reader, at);
    }
    if reader.inner == reader.nodes {
        return Err(Stop::Refused(TypeNameError::EmptyOrUnclosedList, reader.left));
    }
    Ok(close_list(tree, reader))
}

fn at_shift(tree: &mut [u32], reader: NamedReader, at: usize) -> Result<NamedReader, Stop>
    requires { Held tree.old reader × RoomFor tree.old reader.nodes 1 × (at < numbers_bound) }
    ensures { Does tree.old reader tree.new result (λ s. at_shift at s.frames s) }
{
    if !in_list(tree, reader) {
        return take_plain(tree, reader, at);
    }
    if reader.inner == reader.nodes {
        return Err(Stop::Refused(TypeNameError::EmptyOrUnclosedList, reader.left));
    }
    let outer = close_list(tree, reader);
    if !in_list(tree, outer) {
        return Err(Stop::Refused(TypeNameError::ShiftWithoutList, outer.left));
    }
    Ok(close_list(tree, outer))
}

fn at_comma(tree: &mut [u32], reader: NamedReader, at: usize) -> Result<NamedReader, Stop>
    requires { Held tree.old reader × RoomFor tree.old reader.nodes 1 × (at + 1 < numbers_bound) }
    ensures { Does tree.old reader tree.new result (λ s. at_comma at s.frames s) }
{
    if !in_list(tree, reader) {
        return take_plain(tree, reader, at);
    }
    if reader.inner == reader.nodes {
        return Err(Stop::Refused(TypeNameError::EmptyOrUnclosedList, reader.left));
    }
    Ok(next_argument(tree, reader, at))
}

fn at_closer(
    tree: &mut [u32],
    reader: NamedReader,
    delimiter: Delimiter,
) -> Result<NamedReader, Stop>
    requires { Held tree.old reader × RoomFor tree.old reader.nodes 1 }
    ensures { Does tree.old reader tree.new result (λ s. at_closer delimiter s.frames s) }
{
    if reader.inner == 0 {
        return Err(Stop::Refused(TypeNameError::MismatchedClosingDelimiter, reader.left));
    }
    let kind = node_kind(tree, reader.inner - 1);
    if kind == ARGUMENT_NODE {
        return Err(Stop::Refused(TypeNameError::EmptyOrUnclosedList, reader.left));
    }
    if kind == group_kind(delimiter) {
        return Ok(close_group(tree, reader));
    }
    Err(Stop::Refused(TypeNameError::MismatchedClosingDelimiter, reader.left))
}

// A token that is no bracket.
fn no_bracket(
    named: &[bool],
    tree: &mut [u32],
    reader: NamedReader,
    kind: u8,
    at: usize,
) -> Result<NamedReader, Stop>
    requires { Held tree.old reader × RoomFor tree.old reader.nodes 2 × (at + 1 < numbers_bound) }
    ensures { Does tree.old reader tree.new result (no_bracket named.now kind at) }
{
    if kind == kinds::LESS {
        if after_name(named, at) {
            return begin_list(tree, reader, at);
        }
        return take_plain(tree, reader, at);
    }
    if kind == kinds::GREATER {
        return at_greater(tree, reader, at);
    }
    if kind == kinds::SHIFT_RIGHT {
        return at_shift(tree, reader, at);
    }
    if kind == kinds::COMMA {
        return at_comma(tree, reader, at);
    }
    take_plain(tree, reader, at)
}

// What comes of token number `at`, of this kind.
pub fn take_token(
    named: &[bool],
    tree: &mut [u32],
    reader: NamedReader,
    kind: u8,
    at: usize,
) -> Result<NamedReader, Stop>
    requires { Held tree.old reader × RoomFor tree.old reader.nodes 2 × (at + 1 < numbers_bound) }
    ensures { Does tree.old reader tree.new result (take_token named.now kind at) }
{
    if kind == kinds::LEFT_PAREN {
        return begin_group(tree, reader, at, Delimiter::Parenthesis);
    }
    if kind == kinds::LEFT_BRACKET {
        return begin_group(tree, reader, at, Delimiter::Bracket);
    }
    if kind == kinds::RIGHT_PAREN {
        return at_closer(tree, reader, Delimiter::Parenthesis);
    }
    if kind == kinds::RIGHT_BRACKET {
        return at_closer(tree, reader, Delimiter::Bracket);
    }
    no_bracket(named, tree, reader, kind, at)
}
