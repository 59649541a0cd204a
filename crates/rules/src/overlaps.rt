// Whether two rules overlap, and the sequence that is shown.

ghost use Rattle.std.specs.Prelude.{◌≡◌, ◌≤◌, length};
ghost use Rattle.rules.specs.Meeting.{agree, rules_meet};
ghost use Rattle.rules.specs.ItemsStand.{OfItem, OfRules, SomeItem, SomeRule, counts};

use crate::items::{ANY, REST, item_end};
use rows::bytes::same_bytes;

// An item that counts stands at a byte offset of a record that ends at `end`.
pub fn item_counts(table: &[u8], end: usize, at: usize) -> bool
    requires { end ≤ length table.now }
    ensures { result ≡ counts table.now end at }
{
    if end <= at {
        return false;
    }
    table[at] != REST
}

// The items that stand at two byte offsets take some node both.
fn items_agree(table: &[u8], first: usize, second: usize) -> bool
    requires { SomeItem table.now first × SomeItem table.now second }
    ensures { OfItem table.now first (λ i _. OfItem table.now second (λ j _. result ≡ agree i j)) }
{
    let first_end = item_end(table, first);
    let second_end = item_end(table, second);
    if table[first] == ANY {
        return true;
    }
    if table[second] == ANY {
        return true;
    }
    same_bytes(&table[first..first_end], &table[second..second_end])
}

// The rules whose items stand at two byte offsets, up to the ends of their records, overlap.
pub fn rules_meet(
    table: &[u8],
    first: usize,
    first_end: usize,
    second: usize,
    second_end: usize,
) -> bool
    requires { SomeRule table.now first_end first × SomeRule table.now second_end second }
    ensures { OfRules table.now first_end first second_end second (λ p q. result ≡ rules_meet p q) }
{
    let mut x = first;
    let mut y = second;
    while item_counts(table, first_end, x) {
        if !item_counts(table, second_end, y) {
            return y < second_end;
        }
        if !items_agree(table, x, y) {
            return false;
        }
        x = item_end(table, x);
        y = item_end(table, y);
    }
    if x < first_end {
        return true;
    }
    !item_counts(table, second_end, y)
}
