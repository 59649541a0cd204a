// The pairs of rules that overlap, one a call, each with a sequence that both match.

ghost use Rattle.std.specs.Prelude.{◌<◌};
ghost use Rattle.rules.specs.TableStands.{OfTable};
ghost use Rattle.rule_answers.specs.OverlapAnswers.{OverlapTold};
ghost use Rattle.rule_answers.specs.OverlapSays.{PairShown};

use rows::answer::TypeNameError;
use rules::pairs::PairPlaces;
use rules::shown::{LONGEST_SHOWN, put_shown};
use rules::table::{AT_ITEMS, MOST_STARTS, RuleTable, read_table};
use text::hand_over;

// The places of two rules that overlap, and how many bytes of a sequence that both match are shown.
#[derive(Clone, Copy)]
pub struct Overlap {
    pub earlier: u32,
    pub later: u32,
    pub bytes: u32,
}

// `None`: no pair comes after that handed in.
pub type OverlapAnswer = Result<Option<Overlap>, TypeNameError>;

// Shows the rules at two places that overlap.
fn show_pair(
    rules: &RuleTable<'_>,
    earlier: usize,
    later: usize,
    sequence: &mut [u8],
) -> OverlapAnswer
    requires { (earlier < rules.now.count) × (later < rules.now.count) }
    ensures { OfTable rules.now.bytes.now (λ rs. PairShown rs earlier later sequence.old result sequence.new) }
{
    let first = rules.starts[earlier] + AT_ITEMS;
    let first_end = rules.starts[earlier + 1];
    let second = rules.starts[later] + AT_ITEMS;
    let second_end = rules.starts[later + 1];
    let mut shown = [0u8; LONGEST_SHOWN];
    let bytes = put_shown(
        &mut shown,
        rules.bytes,
        first,
        first_end,
        second,
        second_end,
    );
    if hand_over(sequence, &shown[..bytes]) {
        return Ok(Some(Overlap {
            earlier: earlier as u32,
            later: later as u32,
            bytes: bytes as u32,
        }));
    }
    Err(TypeNameError::ShortBuffer)
}

// The first pair of rules that overlap and come after the pair of places handed in, which need be none.
pub fn find_overlap(rules: &[u8], earlier: u32, later: u32, sequence: &mut [u8]) -> OverlapAnswer
    ensures { OverlapTold rules.now earlier later sequence.old result sequence.new }
{
    let mut starts = [0usize; MOST_STARTS];
    let read = read_table(rules, &mut starts);
    let Some(count) = read else {
        return Err(TypeNameError::InvalidRuleTable);
    };
    let table = RuleTable {
        bytes: rules,
        starts: &starts,
        count,
    };
    let found = table.next_pair(earlier as usize, later as usize);
    match found {
        None => Ok(None),
        Some(PairPlaces { earlier, later }) => show_pair(&table, earlier, later, sequence),
    }
}
