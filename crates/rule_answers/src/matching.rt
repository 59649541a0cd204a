// Which rule of a table wins for a file's row.

ghost use Rattle.std.specs.Prelude.{◌≡◌, length, leb};
ghost use Rattle.rows.specs.Refusals.{refusal_of};
ghost use Rattle.type_name.specs.Promises.{last_untouched};
ghost use Rattle.rule_answers.specs.MatchAnswers.{match_answer};
ghost use Rattle.rule_answers.specs.MatchSays.{AnswerLeft, TreeLeft, WinnerSays, left_by};
ghost use Rattle.rule_answers.specs.MatchPromises.{MatchPromised};

use crate::row_places::read_places;
use rows::answer::{Accepted, Answer, Refused, TypeNameError, refusal_of};
use rows::row::MOST_TOKENS;
use rules::row_text::RowText;
use rules::table::{MOST_STARTS, RuleTable, read_table};
use type_name::buffer::settle;
use type_name::entry::parse_type_name;

// "Refusals 1 to 6 don't touch the tree buffer".
const LAST_UNTOUCHED: u32 = 6;

// The tree's nodes, the steps, and the place of the rule that wins.
#[derive(Clone, Copy)]
pub struct Matched {
    pub nodes: u32,
    pub steps: u32,
    pub place: u32,
}

pub type MatchAnswer = Result<Matched, Refused>;

// Refusal 51, or the rule that wins, for a file that is accepted and its tree, which stands in front of the buffer.
fn winner_answer(
    rules: &RuleTable<'_>,
    file: &[u8],
    tree: &[u32],
    nodes: u32,
    steps: u32,
) -> MatchAnswer
    requires { TreeLeft file.now tree.now nodes steps }
    ensures { WinnerSays rules.now.bytes.now file.now (length tree.now) steps result }
{
    let mut kinds = [0u8; MOST_TOKENS];
    let mut places = [0u32; MOST_TOKENS];
    let tokens = read_places(file, &mut kinds, &mut places);
    let row = RowText {
        file,
        kinds: &kinds[..tokens],
        places: &places[..tokens],
    };
    let won = rules.find_winner(&row, tree, nodes as usize);
    match won {
        Some(place) => Ok(Matched {
            nodes,
            steps,
            place: place as u32,
        }),
        None => Err(Refused {
            error: TypeNameError::NoRuleMatches,
            steps,
        }),
    }
}

// The answer to a match, from that of `parse_type_name`, which is none of 1 to 6.
fn table_answer(file: &[u8], rules: &[u8], tree: &[u32], answer: Answer) -> MatchAnswer
    requires { AnswerLeft file.now tree.now answer }
    ensures { result ≡ match_answer file.now rules.now (length tree.now) }
{
    let mut starts = [0usize; MOST_STARTS];
    let read = read_table(rules, &mut starts);
    let Some(count) = read else {
        return Err(Refused::from(TypeNameError::InvalidRuleTable));
    };
    let Accepted { nodes, steps } = answer?;
    let table = RuleTable {
        bytes: rules,
        starts: &starts,
        count,
    };
    winner_answer(&table, file, tree, nodes, steps)
}

// The refusal comes before the row is read.
fn leaves_buffer(error: TypeNameError) -> bool
    ensures { result ≡ leb (refusal_of error).number last_untouched }
{
    let refusal = refusal_of(error);
    refusal.number <= LAST_UNTOUCHED
}

// A refusal leaves no tree.
fn settle_match(tree: &mut [u32], answer: MatchAnswer)
    ensures { tree.new ≡ left_by tree.old answer }
{
    if let Err(refused) = answer {
        settle(tree, Err(refused));
    }
}

// The same, and the buffer as it is left.
fn match_late(file: &[u8], rules: &[u8], tree: &mut [u32], answer: Answer) -> MatchAnswer
    requires { AnswerLeft file.now tree.old answer }
    ensures answered { result ≡ match_answer file.now rules.now (length tree.old) }
    ensures buffered { tree.new ≡ left_by tree.old result }
{
    let matched = table_answer(file, rules, tree, answer);
    settle_match(tree, matched);
    matched
}

// Reads a type name as `parse_type_name` does, and says which rule of a table wins.
pub fn match_type_name(file: &[u8], rules: &[u8], tree: &mut [u32]) -> MatchAnswer
    ensures { MatchPromised file.now rules.now tree.old result tree.new }
{
    let answer = parse_type_name(file, tree);
    match answer {
        Ok(_) => match_late(file, rules, tree, answer),
        Err(refused) => {
            if leaves_buffer(refused.error) {
                return Err(refused);
            }
            match_late(file, rules, tree, answer)
        }
    }
}
