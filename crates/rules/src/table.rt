// A table's records, one a rule.

ghost use Rattle.std.specs.Prelude.{◌≡◌, ◌+◌, ◌≤◌, ◌<◌, length};
ghost use Rattle.rules.specs.RuleTable.{items_from, most_items, most_rules, rule_at, rule_length};
ghost use Rattle.rules.specs.TableStands.{ReadsTable, RulesRead, is_rule, rule_read};
ghost use Rattle.rules.specs.OneTable.{RulesRead-prop};

use crate::items::{REST, item_at};
use rows::bytes::two_bytes;
use rows::head::AT_KIND;

pub const MOST_RULES: usize = 256;

// Where each rule begins, and where the last one ends.
pub const MOST_STARTS: usize = MOST_RULES + 1;

pub const MOST_ITEMS: usize = 16;

const RULE_KIND: usize = 272;

// Behind a record's length and kind.
pub const AT_ITEMS: usize = 4;

// A well-formed table of rules, and where each rule's record begins.
#[derive(Clone, Copy)]
pub struct RuleTable<'a> {
    pub bytes: &'a [u8],
    pub starts: &'a [usize],
    pub count: usize,
    ghost read: { RulesRead bytes.now count starts.now } by { RulesRead-prop bytes.now count starts.now },
}

// The bytes from `begin` to `end` are the items of a rule.
fn items_fill(table: &[u8], end: usize, begin: usize) -> bool
    requires { (begin ≤ end) × (end ≤ length table.now) }
    ensures { result ≡ is_rule (items_from table.now end most_items begin) }
{
    let mut at = begin;
    let mut count: usize = 0;
    while at < end {
        if count == MOST_ITEMS {
            return false;
        }
        if table[at] == REST {
            return at + 1 == end;
        }
        let found = item_at(table, end, at);
        let Some(next) = found else {
            return false;
        };
        at = next;
        count += 1;
    }
    true
}

// Where the rule's record that begins at a byte offset ends, if it is well formed.
pub fn rule_at(table: &[u8], at: usize) -> Option<usize>
    requires { at ≤ length table.now }
    ensures { result ≡ rule_read (at + rule_length table.now at) (rule_at table.now at) }
{
    if table.len() - at < AT_ITEMS {
        return None;
    }
    if two_bytes(table, at + AT_KIND) != RULE_KIND {
        return None;
    }
    let size = two_bytes(table, at);
    if size <= AT_ITEMS {
        return None;
    }
    if table.len() - at < size {
        return None;
    }
    let end = at + size;
    if items_fill(table, end, at + AT_ITEMS) {
        return Some(end);
    }
    None
}

// How many rules a well-formed table has: `starts` gets where each one's record begins, and behind them where the last one ends.
pub fn read_table(table: &[u8], starts: &mut [usize]) -> Option<usize>
    requires { most_rules < length starts.old }
    ensures { ReadsTable table.now result starts.new }
{
    let mut at = 0;
    let mut count: usize = 0;
    starts[0] = 0;
    while at < table.len() {
        if count == MOST_RULES {
            return None;
        }
        let rule = rule_at(table, at);
        let Some(end) = rule else {
            return None;
        };
        count += 1;
        starts[count] = end;
        at = end;
    }
    Some(count)
}
