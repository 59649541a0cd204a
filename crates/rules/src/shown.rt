// The sequence that is shown for two rules, as items in a lent buffer.

ghost use Rattle.std.specs.Prelude.{◌≡◌, ◌&&◌, ◌+◌, ◌≤◌, length};
ghost use Rattle.text.specs.Text.{Appended};
ghost use Rattle.text.specs.Puts.{Puts};
ghost use Rattle.rules.specs.Overlaps.{items_bytes, longest_shown, shown, shown_item};
ghost use Rattle.rules.specs.ItemsStand.{ItemRoom, ItemsRoom, OfItem, OfItems, OfRules, SomeItem, SomeRule, StandsSomewhere, counts};
ghost use Rattle.rules.specs.RuleTable.{item_bytes};

use crate::items::{AFTER_TWO, ANY, item_end};
use crate::overlaps::item_counts;
use crate::table::MOST_ITEMS;
use rows::token::LONGEST_WORD;
use text::Text;

// Room for every sequence that is shown.
pub const LONGEST_SHOWN: usize = MOST_ITEMS * (AFTER_TWO + LONGEST_WORD);

// Puts the item that stands at a byte offset.
fn put_item(output: &mut Text, table: &[u8], item: usize)
    requires { ItemRoom table.now item output.old.end output.old.bytes.now }
    ensures { OfItem table.now item (λ i _. Puts output.old (item_bytes i) output.new) }
{
    let end = item_end(table, item);
    output.put_bytes(&table[item..end]);
}

// Puts the items that count, from a byte offset of a record to its end.
fn put_items(output: &mut Text, table: &[u8], end: usize, item: usize)
    requires { ItemsRoom table.now end item output.old.end output.old.bytes.now }
    ensures { OfItems table.now end item (λ is. Puts output.old (items_bytes is) output.new) }
{
    let mut x = item;
    while item_counts(table, end, x) {
        put_item(output, table, x);
        x = item_end(table, x);
    }
}

// Both rules have an item that counts left.
fn both_count(table: &[u8], first_end: usize, x: usize, second_end: usize, y: usize) -> bool
    requires { (first_end ≤ length table.now) × (second_end ≤ length table.now) }
    ensures { result ≡ counts table.now first_end x && counts table.now second_end y }
{
    if item_counts(table, first_end, x) {
        return item_counts(table, second_end, y);
    }
    false
}

// Which of two items is shown: the first, or the second if the first is any one node.
fn shown_item(table: &[u8], first: usize, second: usize) -> usize
    requires { SomeItem table.now first }
    ensures { OfItem table.now first (λ i _. OfItem table.now second (λ j _. StandsSomewhere table.now result (shown_item i j))) }
{
    if table[first] == ANY {
        return second;
    }
    first
}

fn put_both(
    output: &mut Text,
    table: &[u8],
    first: usize,
    first_end: usize,
    second: usize,
    second_end: usize,
)
    requires { SomeRule table.now first_end first × SomeRule table.now second_end second × (output.old.end + longest_shown ≤ length output.old.bytes.now) }
    ensures { OfRules table.now first_end first second_end second (λ p q. Puts output.old (items_bytes (shown p.items q.items)) output.new) }
{
    let mut x = first;
    let mut y = second;
    while both_count(table, first_end, x, second_end, y) {
        let item = shown_item(table, x, y);
        put_item(output, table, item);
        x = item_end(table, x);
        y = item_end(table, y);
    }
    put_items(output, table, first_end, x);
    put_items(output, table, second_end, y);
}

// Puts the sequence that is shown for the rules at two byte offsets in front of the buffer.
pub fn put_shown(
    output: &mut [u8],
    table: &[u8],
    first: usize,
    first_end: usize,
    second: usize,
    second_end: usize,
) -> usize
    requires { SomeRule table.now first_end first × SomeRule table.now second_end second × (longest_shown ≤ length output.old) }
    ensures { OfRules table.now first_end first second_end second (λ p q. Appended output.old 0 (items_bytes (shown p.items q.items)) result output.new) }
{
    let mut items = Text::new(output);
    put_both(&mut items, table, first, first_end, second, second_end);
    items.len()
}
