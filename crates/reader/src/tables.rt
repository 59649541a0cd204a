// What is to be done at a token of a kind: the tables of specs/Reading.antt.

ghost use Rattle.std.specs.Prelude.{◌≡◌, ◌||◌, ◌≤◌, eqb};
ghost use Rattle.rows.specs.Kinds.{Comma};
ghost use Rattle.reader.specs.Nodes.{number, numbers_bound};
ghost use Rattle.reader.specs.Reading.{is_angle_close, kind_at, starts, top};
ghost use Rattle.reader.specs.Tables.{Plans, PlansGroup, region_of, node_of, started};

use crate::nodes::{BRACKETS_NODE, PARENTHESES_NODE};
use rows::answer::{Delimiter, TypeNameError};
use rows::kinds;

// How a node begins.
#[derive(Clone, Copy)]
pub enum Start {
    Group(Delimiter),
    Angle,
    Token,
}

// What a token is to the nodes of the row or of a group.
#[derive(Clone, Copy)]
pub enum GroupStep {
    Ends(usize),
    Stops(TypeNameError),
    Node,
}

// The kind of a token of the row, or no token's.
pub fn kind_at(kinds: &[u8], at: usize) -> u8
    ensures { result ≡ kind_at kinds.now at }
{
    if at < kinds.len() {
        return kinds[at];
    }
    kinds::NO_TOKEN_KIND
}

// A list can end here.
pub fn is_angle_close(lists: usize, kind: u8, half: bool) -> bool
    ensures { result ≡ is_angle_close lists kind half }
{
    if half {
        return true;
    }
    if kind == kinds::GREATER {
        return true;
    }
    if kind == kinds::SHIFT_RIGHT {
        return lists >= 2;
    }
    false
}

// An argument ends here.
pub fn argument_ends(lists: usize, kind: u8, half: bool) -> bool
    ensures { result ≡ is_angle_close lists kind half || eqb kind Comma }
{
    if kind == kinds::COMMA {
        return true;
    }
    is_angle_close(lists, kind, half)
}

// No `From`: neither type is this crate's.
pub fn group_kind(delimiter: Delimiter) -> u32
    ensures { result ≡ number (node_of delimiter) }
{
    match delimiter {
        Delimiter::Parenthesis => PARENTHESES_NODE,
        Delimiter::Bracket => BRACKETS_NODE,
    }
}

// What is to be done at a token of the row outside groups.
fn row_step(kind: u8, at: usize) -> GroupStep
    ensures { Plans result top kind at }
{
    if kind == kinds::NO_TOKEN_KIND {
        return GroupStep::Ends(at);
    }
    if kind == kinds::RIGHT_PAREN {
        return GroupStep::Stops(TypeNameError::MismatchedClosingDelimiter);
    }
    if kind == kinds::RIGHT_BRACKET {
        return GroupStep::Stops(TypeNameError::MismatchedClosingDelimiter);
    }
    GroupStep::Node
}

// What is to be done at a token of a group: `close` closes it, `other` closes the other kind of group.
fn bracket_step(close: u8, other: u8, kind: u8, at: usize) -> GroupStep
    requires { at ≤ numbers_bound }
    ensures { PlansGroup result close other kind at }
{
    if kind == kinds::NO_TOKEN_KIND {
        return GroupStep::Stops(TypeNameError::UnterminatedGroup);
    }
    if kind == close {
        return GroupStep::Ends(at + 1);
    }
    if kind == other {
        return GroupStep::Stops(TypeNameError::MismatchedClosingDelimiter);
    }
    GroupStep::Node
}

// What is to be done at a token of the row, or of the group that is open.
pub fn group_step(end: Option<Delimiter>, kind: u8, at: usize) -> GroupStep
    requires { at ≤ numbers_bound }
    ensures { Plans result (region_of end) kind at }
{
    match end {
        None => row_step(kind, at),
        Some(Delimiter::Parenthesis) => {
            bracket_step(kinds::RIGHT_PAREN, kinds::RIGHT_BRACKET, kind, at)
        }
        Some(Delimiter::Bracket) => bracket_step(
            kinds::RIGHT_BRACKET,
            kinds::RIGHT_PAREN,
            kind,
            at,
        ),
    }
}

// How the node at a token of this kind begins. `after_identifier`: its left neighbour is an identifier.
pub fn node_start(cpp: bool, after_identifier: bool, kind: u8) -> Start
    ensures { started kind result ≡ starts cpp after_identifier kind }
{
    if kind == kinds::LEFT_PAREN {
        return Start::Group(Delimiter::Parenthesis);
    }
    if kind == kinds::LEFT_BRACKET {
        return Start::Group(Delimiter::Bracket);
    }
    if kind == kinds::LESS {
        if cpp {
            if after_identifier {
                return Start::Angle;
            }
        }
    }
    Start::Token
}
