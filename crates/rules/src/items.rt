// A rule's items, in the bytes of a table.

ghost use Rattle.std.specs.Prelude.{◌≡◌, Bool, ◌≤◌, ◌<◌, length};
ghost use Rattle.rules.specs.RuleTable.{item_at, kind_item, word_item};
ghost use Rattle.rules.specs.ItemsStand.{item_read, OfItem, SomeItem};

use rows::kinds::END;
use rows::token::is_word;

// An item's first byte: numbers, and no enum, since `same_bytes` compares two items as they stand in the table that a caller hands over.
pub const WORD: u8 = 0;

pub const KIND: u8 = 1;

pub const GROUP: u8 = 2;

pub const LIST: u8 = 3;

pub const ANY: u8 = 4;

pub const REST: u8 = 5;

// Behind an item's byte and the length of its word, or its kind.
pub const AFTER_TWO: usize = 2;

// Where the word item at a byte offset of a record that ends at `end` ends, if it counts.
fn word_item(table: &[u8], end: usize, at: usize) -> Option<usize>
    requires { (at < end) × (end ≤ length table.now) }
    ensures { result ≡ item_read (word_item table.now end at) }
{
    if end - at < AFTER_TWO {
        return None;
    }
    let from = at + AFTER_TWO;
    let size = usize::from(table[at + 1]);
    if end - from < size {
        return None;
    }
    if size == 0 {
        return None;
    }
    let next = from + size;
    if is_word(&table[from..next]) {
        return Some(next);
    }
    None
}

// The same of a kind item.
fn kind_item(table: &[u8], end: usize, at: usize) -> Option<usize>
    requires { (at < end) × (end ≤ length table.now) }
    ensures { result ≡ item_read (kind_item table.now end at) }
{
    if end - at < AFTER_TWO {
        return None;
    }
    let kind = table[at + 1];
    if kind == 0 {
        return None;
    }
    if END < kind {
        return None;
    }
    Some(at + AFTER_TWO)
}

// Where the item at a byte offset of a record that ends at `end` ends, if it is one that counts.
pub fn item_at(table: &[u8], end: usize, at: usize) -> Option<usize>
    requires { (at < end) × (end ≤ length table.now) }
    ensures { result ≡ item_read (item_at table.now end at) }
{
    let byte = table[at];
    if byte == WORD {
        return word_item(table, end, at);
    }
    if byte == KIND {
        return kind_item(table, end, at);
    }
    if byte <= ANY {
        return Some(at + 1);
    }
    None
}

// Where the item that stands at a byte offset ends.
pub fn item_end(table: &[u8], at: usize) -> usize
    requires { SomeItem table.now at }
    ensures { OfItem table.now at (λ i next. result ≡ next) }
{
    let byte = table[at];
    if byte == WORD {
        return at + AFTER_TWO + usize::from(table[at + 1]);
    }
    if byte == KIND {
        return at + AFTER_TWO;
    }
    at + 1
}
