// Whether a rule matches the top-level nodes of a tree.

ghost use Rattle.std.specs.Prelude.{◌≡◌, ◌<◌};
ghost use Rattle.rules.specs.Rules.{fits, matches};
ghost use Rattle.rules.specs.Seen.{seen};
ghost use Rattle.type_nodes.specs.Stands.{NodesStand};
ghost use Rattle.rules.specs.RowSeen.{OfNodes, first_seen, shape_seen};
ghost use Rattle.rules.specs.ItemsStand.{OfItem, OfRule, SomeItem, SomeRule};

use crate::items::{AFTER_TWO, ANY, GROUP, KIND, WORD, item_end};
use crate::overlaps::item_counts;
use crate::row_text::RowText;
use rows::bytes::same_bytes;
use rows::format::current;
use rows::kinds::IDENTIFIER;
use rows::token::word;
use type_nodes::nodes::{Node, node_at, node_end};
use type_nodes::shapes::{NO_NODE, TEMPLATE_ARGUMENTS};

// The item at a byte offset takes a node of this shape, with this word if it is an identifier.
fn item_fits(table: &[u8], item: usize, shape: u8, text: &[u8]) -> bool
    requires { SomeItem table.now item }
    ensures { OfItem table.now item (λ i _. result ≡ fits i (shape_seen shape text.now)) }
{
    let byte = table[item];
    if byte == ANY {
        return true;
    }
    if byte == WORD {
        if shape != IDENTIFIER {
            return false;
        }
        let begin = item + AFTER_TWO;
        let end = item_end(table, item);
        return same_bytes(&table[begin..end], text);
    }
    if byte == KIND {
        return table[item + 1] == shape;
    }
    if byte == GROUP {
        return (NO_NODE <= shape) & (shape < TEMPLATE_ARGUMENTS);
    }
    TEMPLATE_ARGUMENTS <= shape
}

// The item at a byte offset takes the node at a place of a tree.
fn node_fits(
    table: &[u8],
    item: usize,
    row: &RowText<'_>,
    tree: &[u32],
    at: usize,
    to: usize,
) -> bool
    requires { SomeItem table.now item × (at < to) × NodesStand tree.now row.now.kinds.now at to }
    ensures { OfNodes row.now.file.now row.now.kinds.now row.now.places.now tree.now at to (λ ts x. OfItem table.now item (λ i _. result ≡ fits i (first_seen ts x))) }
{
    let found = node_at(tree, row.kinds, at, to);
    let Some(
        Node {
            shape,
            token,
            next: _,
        },
    ) = found
    else {
        return false;
    };
    let place = row.places[token] as usize;
    item_fits(table, item, shape, word(current(), row.file, place))
}

// The rule whose items stand at a byte offset, up to its record's end, matches all top-level nodes of a tree.
pub fn rule_matches(
    table: &[u8],
    end: usize,
    begin: usize,
    row: &RowText<'_>,
    tree: &[u32],
    nodes: usize,
) -> bool
    requires { SomeRule table.now end begin × NodesStand tree.now row.now.kinds.now 0 nodes }
    ensures { OfNodes row.now.file.now row.now.kinds.now row.now.places.now tree.now 0 nodes (λ ts x. OfRule table.now end begin (λ p. result ≡ matches p (seen ts x))) }
{
    let mut item = begin;
    let mut at = 0;
    while item_counts(table, end, item) {
        if nodes <= at {
            return false;
        }
        if !node_fits(table, item, row, tree, at, nodes) {
            return false;
        }
        item = item_end(table, item);
        at = node_end(tree, row.kinds, at, nodes);
    }
    if item < end {
        return true;
    }
    nodes <= at
}
