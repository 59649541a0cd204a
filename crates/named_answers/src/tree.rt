// A row's tree, and its checks, where names are given.

ghost use Rattle.type_name.specs.EntrySays.{TreeSays};
ghost use Rattle.named_answers.specs.NamedAnswers.{named_tree};
ghost use Rattle.named_answers.specs.NamedAnswersSay.{ReadsNamed, RowHeld, TreeReady};

use crate::name_marks::find_names;
use named_reader::parse::parse_named;
use prescan::prescan::prescan_row;
use reader::parser::Parsed;
use rows::answer::{Answer, Refused, TypeNameError};
use rows::head::Head;
use rows::languages;
use rows::row::MOST_TOKENS;
use type_name::tree::check_tree;

// A row's tree, in front of the buffer. The buffer is lent to the prescan for its stack.
fn read_tree(kinds: &[u8], named: &[bool], tree: &mut [u32], allowance: u32) -> Parsed
    requires { TreeReady kinds.now tree.old }
    ensures { TreeSays kinds.now allowance (named_tree named.now kinds.now) result tree.new }
{
    prescan_row(languages::CPP, kinds, tree)?;
    parse_named(kinds, named, tree, allowance)
}

// The answer to a row for which the tree buffer has room, its tree in front of the buffer.
pub fn read_checked(
    head: Head,
    file: &[u8],
    kinds: &[u8],
    words: &[u8],
    names: &[u8],
    tree: &mut [u32],
) -> Answer
    requires { RowHeld file.now kinds.now words.now tree.old }
    ensures { ReadsNamed head file.now kinds.now words.now names.now result tree.new }
{
    let mut named = [false; MOST_TOKENS];
    if head.language != languages::CPP {
        return Err(Refused::from(TypeNameError::InvalidNameList));
    }
    if !find_names(file, kinds, names, &mut named) {
        return Err(Refused::from(TypeNameError::InvalidNameList));
    }
    let parsed = read_tree(kinds, &named, tree, head.allowance);
    check_tree(head, kinds, words, tree, parsed)
}
