// The lines of a listing. No `Display`: `put_listing` says each byte of a text in a lent array, and there is no heap.

ghost use Rattle.std.specs.Prelude.{◌≡◌, ◌+◌, ◌*◌, ◌≤◌, length};
ghost use Rattle.text.specs.Text.{Appended};
ghost use Rattle.text.specs.Puts.{Puts};
ghost use Rattle.reader.specs.Nodes.{Recorded, node_width};
ghost use Rattle.listing.specs.Listing.{accepted_line, accepted_line_length, letter as letter_of, listed, listing, listing_length, node_line, node_line_length, node_lines, refused_line, refused_line_length};

use crate::level::level;
use reader::nodes;
use reader::nodes::{node_extent, node_kind, node_token};
use rows::answer::{Accepted, Answer, Refusal, Refused, refusal_of};
use text::{LONGEST_ENDED, Text};

// `ok` or `no`, and a space.
const OPENING_LENGTH: usize = 3;

// The longest first line: number, token, detail and steps.
pub const REFUSED_LINE_LENGTH: usize = OPENING_LENGTH
    + LONGEST_ENDED
    + LONGEST_ENDED
    + LONGEST_ENDED
    + LONGEST_ENDED;

// The longest line of a node: level, letter, space, token and extent.
pub const NODE_LINE_LENGTH: usize = LONGEST_ENDED + 1 + 1 + LONGEST_ENDED + LONGEST_ENDED;

fn letter(kind: u32) -> u8
    ensures { result ≡ letter_of kind }
{
    match kind {
        nodes::TOKEN_NODE => b'T',
        nodes::PARENTHESES_NODE => b'G',
        nodes::BRACKETS_NODE => b'B',
        nodes::LIST_NODE => b'L',
        nodes::ARGUMENT_NODE => b'A',
        _ => b'?',
    }
}

fn put_node(text: &mut Text, tree: &[u32], node: usize)
    requires { (text.old.end + node_line_length ≤ length text.old.bytes.now) × Recorded tree.now node }
    ensures { Puts text.old (node_line tree.now node) text.new }
{
    text.put_ended(level(tree, node), b' ');
    text.put_byte(letter(node_kind(tree, node)));
    text.put_byte(b' ');
    text.put_ended(node_token(tree, node), b' ');
    text.put_ended(node_extent(tree, node), b'\n');
}

fn put_nodes(text: &mut Text, tree: &[u32], nodes: usize)
    requires { (text.old.end + node_line_length * nodes ≤ length text.old.bytes.now) × (node_width * nodes ≤ length tree.now) }
    ensures { Puts text.old (node_lines tree.now nodes) text.new }
{
    for node in 0..nodes {
        put_node(text, tree, node);
    }
}

fn put_accepted(text: &mut Text, nodes: u32, steps: u32)
    requires { text.old.end + accepted_line_length ≤ length text.old.bytes.now }
    ensures { Puts text.old (accepted_line nodes steps) text.new }
{
    text.put_bytes(b"ok ");
    text.put_ended(nodes as usize, b' ');
    text.put_ended(steps as usize, b'\n');
}

fn put_refused(text: &mut Text, refusal: Refusal, steps: u32)
    requires { text.old.end + refused_line_length ≤ length text.old.bytes.now }
    ensures { Puts text.old (refused_line refusal steps) text.new }
{
    text.put_bytes(b"no ");
    text.put_ended(refusal.number as usize, b' ');
    text.put_ended(refusal.token as usize, b' ');
    text.put_ended(refusal.detail as usize, b' ');
    text.put_ended(steps as usize, b'\n');
}

// As many nodes as the answer counts; the tree buffer has room for no more.
fn listed_nodes(nodes: u32, tree: &[u32]) -> usize
    ensures { result ≡ listed nodes tree.now }
{
    let room = tree.len() / nodes::NODE_WIDTH;
    room.min(nodes as usize)
}

fn put_answer(text: &mut Text, answer: Answer, tree: &[u32])
    requires { text.old.end + listing_length (length tree.now) ≤ length text.old.bytes.now }
    ensures put { Puts text.old (listing answer tree.now) text.new }
    ensures within { text.new.end ≤ length text.old.bytes.now }
{
    match answer {
        Err(Refused { error, steps }) => put_refused(text, refusal_of(error), steps),
        Ok(Accepted { nodes, steps }) => {
            put_accepted(text, nodes, steps);
            put_nodes(text, tree, listed_nodes(nodes, tree));
        }
    }
}

// The whole listing, in front of `text`.
pub fn put_listing(text: &mut [u8], answer: Answer, tree: &[u32]) -> usize
    requires { listing_length (length tree.now) ≤ length text.old }
    ensures appended { Appended text.old 0 (listing answer tree.now) result text.new }
    ensures within { result ≤ length text.old }
{
    let mut lines = Text::new(text);
    put_answer(&mut lines, answer, tree);
    lines.len()
}
