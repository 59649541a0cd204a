// `type_name_overlap`.

ghost use Rattle.exports.specs.Overlap.{OverlapReturned};

use crate::numbers::put_overlap;
use rule_answers::overlap::find_overlap;

// Finds the first pair of rules that overlap and come after the pair handed in, as `find_overlap` does: returns 0, or the refusal's
// number; of the answer's four numbers as many are written as `numbers` has room for.
pub fn type_name_overlap(
    rules: &[u8],
    earlier: u32,
    later: u32,
    sequence: &mut [u8],
    numbers: &mut [u32],
) -> u32
    ensures { OverlapReturned rules.now earlier later sequence.old sequence.new numbers.old result numbers.new }
{
    let found = find_overlap(rules, earlier, later, sequence);
    put_overlap(numbers, found)
}
