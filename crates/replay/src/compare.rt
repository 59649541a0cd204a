// Comparison of expected with given numbers.

ghost use Rattle.std.specs.Prelude.{◌≡◌, ◌≤◌, length};
ghost use Rattle.replay.specs.Replay.{agree as agree_on, first_difference};
ghost use Rattle.replay.specs.Report.{part_length};

use crate::report::print_difference;

// The place of the first number that differs, the length if none does.
fn first_difference(expected: &[u32], given: &[u32]) -> usize
    requires { length expected.now ≡ length given.now }
    ensures value { result ≡ first_difference expected.now given.now }
    ensures within { result ≤ length expected.now }
{
    for at in 0..expected.len() {
        if expected[at] != given[at] {
            return at;
        }
    }
    expected.len()
}

// Whether all numbers agree; if not, prints the first that does not.
pub fn agree(rt: &HostRuntime, case: usize, part: &[u8], expected: &[u32], given: &[u32]) -> bool
    requires { (length expected.now ≡ length given.now) × (length part.now ≤ part_length) }
    ensures { result ≡ agree_on expected.now given.now }
{
    let at = first_difference(expected, given);
    if at == expected.len() {
        return true;
    }
    print_difference(rt, case, part, at, expected[at], given[at]);
    false
}
