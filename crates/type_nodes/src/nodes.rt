// The nodes of a level, read from the node records of a tree: a level is a range of node numbers.

ghost use Rattle.std.specs.Prelude.{◌≡◌, ◌+◌, ◌<◌, suc};
ghost use Rattle.reader.specs.Nodes.{count};
ghost use Rattle.type_nodes.specs.Shapes.{NoNode};
ghost use Rattle.type_nodes.specs.Nodes.{shape, node_identifier, exact_word, is_single_token, is_ellipsis};
ghost use Rattle.type_nodes.specs.Stands.{NodesStand, WordedNodes, Of, Finds, below};

use crate::shapes::NO_NODE;
use reader::nodes::{TOKEN_NODE, node_extent, node_kind, node_token};
use rows::kinds::{DOT, IDENTIFIER};
use rows::word_numbers::{NO_WORD, exactly};

// What the records say of a node of a level; `next`: where the nodes after it begin.
#[derive(Clone, Copy)]
pub struct Node {
    pub shape: u8,
    pub token: usize,
    pub next: usize,
}

// The shape of the node at a place of a level.
pub fn shape_at(tree: &[u32], kinds: &[u8], at: usize, to: usize) -> u8
    requires { NodesStand tree.now kinds.now at to }
    ensures { Of tree.now kinds.now at to (λ x. result ≡ shape kinds.now x) }
{
    if at >= to {
        return NO_NODE;
    }
    let kind = node_kind(tree, at);
    if kind == TOKEN_NODE {
        let token = node_token(tree, at);
        return kinds[token];
    }
    NO_NODE + kind as u8
}

// Where the nodes after the node at a place begin.
pub fn node_end(tree: &[u32], kinds: &[u8], at: usize, to: usize) -> usize
    requires { (at < to) × NodesStand tree.now kinds.now at to }
    ensures { Of tree.now kinds.now at to (λ x. result ≡ suc (at + count (below x))) }
{
    at + node_extent(tree, at)
}

// The node at a place, if the level goes on there.
pub fn node_at(tree: &[u32], kinds: &[u8], at: usize, to: usize) -> Option<Node>
    requires { NodesStand tree.now kinds.now at to }
    ensures { Of tree.now kinds.now at to (λ x. Finds kinds.now at result x) }
{
    if at >= to {
        return None;
    }
    let shape = shape_at(tree, kinds, at, to);
    let token = node_token(tree, at);
    let next = node_end(tree, kinds, at, to);
    Some(Node { shape, token, next })
}

// The word number of the node at a place, if it is an identifier.
pub fn node_identifier(tree: &[u32], kinds: &[u8], words: &[u8], at: usize, to: usize) -> u8
    requires { WordedNodes tree.now kinds.now words.now at to }
    ensures { Of tree.now kinds.now at to (λ x. result ≡ node_identifier kinds.now words.now x) }
{
    let Some(node) = node_at(tree, kinds, at, to) else {
        return NO_WORD;
    };
    if node.shape == IDENTIFIER {
        return words[node.token];
    }
    NO_WORD
}

// Which known word the node at a place is exactly.
pub fn exact_word(tree: &[u32], kinds: &[u8], words: &[u8], at: usize, to: usize) -> u8
    requires { WordedNodes tree.now kinds.now words.now at to }
    ensures { Of tree.now kinds.now at to (λ x. result ≡ exact_word kinds.now words.now x) }
{
    exactly(node_identifier(tree, kinds, words, at, to))
}

pub fn is_single_token(tree: &[u32], kinds: &[u8], kind: u8, from: usize, to: usize) -> bool
    requires { (kind < NoNode) × NodesStand tree.now kinds.now from to }
    ensures { Of tree.now kinds.now from to (λ x. result ≡ is_single_token kinds.now kind x) }
{
    let Some(node) = node_at(tree, kinds, from, to) else {
        return false;
    };
    (node.shape == kind) & (node.next == to)
}

pub fn is_ellipsis(tree: &[u32], kinds: &[u8], from: usize, to: usize) -> bool
    requires { NodesStand tree.now kinds.now from to }
    ensures { Of tree.now kinds.now from to (λ x. result ≡ is_ellipsis kinds.now x) }
{
    if shape_at(tree, kinds, from, to) != DOT {
        return false;
    }
    let second = node_end(tree, kinds, from, to);
    if shape_at(tree, kinds, second, to) != DOT {
        return false;
    }
    let third = node_end(tree, kinds, second, to);
    if shape_at(tree, kinds, third, to) != DOT {
        return false;
    }
    node_end(tree, kinds, third, to) == to
}
