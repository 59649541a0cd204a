// A row's tree, and its checks: prescan, reading, structure, profile, one after the other.

ghost use Rattle.std.specs.Prelude.{◌≡◌, ◌*◌, ◌≤◌, length};
ghost use Rattle.rows.specs.Format.{most_tokens};
ghost use Rattle.reader.specs.Nodes.{numbers_per_token};
ghost use Rattle.profile.specs.Profile.{missing_feature};
ghost use Rattle.type_name.specs.Answers.{answer_of, row_tree};
ghost use Rattle.type_name.specs.EntrySays.{CheckReady, CheckSays, NodesReady, NodesSay, ReadsRow, RowReady, TreeSays, profile_answer};

use prescan::prescan::prescan_row;
use profile::profile::validate_profile_features;
use reader::parser::{ParseError, Parsed, Tree, parse};
use rows::answer::{Accepted, Answer, Refused, TypeNameError};
use rows::head::{Head, asks_structure};
use rows::languages;
use structure::level::{Level, ReadRow};
use structure::moves::Fault;

// Refusal 40, or the tree is accepted.
fn check_profile(head: Head, kinds: &[u8], words: &[u8], nodes: u32, steps: u32) -> Answer
    ensures { result ≡ profile_answer nodes steps (missing_feature head.language head.standard kinds.now words.now) }
{
    let lack = validate_profile_features(head.language, head.standard, kinds, words);
    match lack {
        None => Ok(Accepted { nodes, steps }),
        Some(feature) => Err(Refused {
            error: TypeNameError::NotAvailableInProfile(feature),
            steps,
        }),
    }
}

// Refusals 30, 25 and 40 of the tree that stands in front of the buffer, read in so many steps.
fn check_nodes(
    head: Head,
    kinds: &[u8],
    words: &[u8],
    tree: &[u32],
    nodes: usize,
    steps: u32,
) -> Answer
    requires { NodesReady kinds.now words.now head.allowance nodes steps tree.now }
    ensures { NodesSay head kinds.now words.now nodes steps tree.now result }
{
    let count = nodes as u32;
    if !asks_structure(head.flag) {
        return check_profile(head, kinds, words, count, steps);
    }
    let allowed = (head.allowance - steps) as usize;
    let row = ReadRow {
        language: head.language,
        tree,
        kinds,
        words,
    };
    let level = Level {
        row: &row,
        from: 0,
        to: nodes,
    };
    let verdict = level.validate_structured_syntax(allowed);
    match verdict {
        Ok(left) => check_profile(head, kinds, words, count, head.allowance - (left as u32)),
        Err(Fault::Fails(left)) => Err(Refused {
            error: TypeNameError::NoTypeName,
            steps: head.allowance - (left as u32),
        }),
        Err(Fault::Spent) => Err(Refused {
            error: TypeNameError::AllowancePassed,
            steps: head.allowance,
        }),
    }
}

// The answer to a row, from what its reading came to.
pub fn check_tree(head: Head, kinds: &[u8], words: &[u8], tree: &[u32], parsed: Parsed) -> Answer
    requires { CheckReady kinds.now words.now head.allowance parsed tree.now }
    ensures { CheckSays head kinds.now words.now parsed tree.now result }
{
    match parsed {
        Ok(Tree { nodes, steps }) => check_nodes(head, kinds, words, tree, nodes, steps),
        Err(ParseError::Refused { error, steps }) => Err(Refused { error, steps }),
        Err(ParseError::AllowancePassed) => Err(Refused {
            error: TypeNameError::AllowancePassed,
            steps: head.allowance,
        }),
    }
}

// A row's tree, in front of the buffer. The buffer is lent to the prescan for its stack. The other reading has two such lines too: one function that is
// handed the reading would be no shorter.
fn read_tree(language: u8, kinds: &[u8], tree: &mut [u32], allowance: u32) -> Parsed
    requires { (length kinds.now ≤ most_tokens) × (numbers_per_token * length kinds.now ≤ length tree.old) }
    ensures { TreeSays kinds.now allowance (row_tree language kinds.now) result tree.new }
{
    prescan_row(language, kinds, tree)?;
    parse(kinds, language == languages::CPP, tree, allowance)
}

// The answer to a row for which the tree buffer has room, its tree in front of the buffer.
pub fn read_checked(head: Head, kinds: &[u8], words: &[u8], tree: &mut [u32]) -> Answer
    requires { RowReady kinds.now words.now tree.old }
    ensures { ReadsRow (answer_of head.language head.standard head.flag kinds.now words.now head.allowance) result tree.new }
{
    let parsed = read_tree(head.language, kinds, tree, head.allowance);
    check_tree(head, kinds, words, tree, parsed)
}
