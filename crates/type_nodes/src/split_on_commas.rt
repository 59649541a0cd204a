// The elements between commas: `split_on_commas` as walks.

ghost use Rattle.std.specs.Prelude.{◌≡◌, ◌+◌};
ghost use Rattle.reader.specs.Nodes.{count};
ghost use Rattle.type_nodes.specs.SplitOnCommas.{split_on_commas, elements_are_full};
ghost use Rattle.type_nodes.specs.Stands.{first_element, NodesStand, Of};

use crate::nodes::{node_end, shape_at};
use rows::kinds::COMMA;

// Where the first element ends: at a comma, or with the level.
pub fn element_end(tree: &[u32], kinds: &[u8], from: usize, to: usize) -> usize
    requires { NodesStand tree.now kinds.now from to }
    ensures { Of tree.now kinds.now from to (λ x. result ≡ from + count (first_element kinds.now x)) }
{
    let mut at = from;
    while at < to {
        if shape_at(tree, kinds, at, to) == COMMA {
            return at;
        }
        at = node_end(tree, kinds, at, to);
    }
    at
}

// No element between commas is empty: `split_on_commas` gives no `None`.
pub fn elements_are_full(tree: &[u32], kinds: &[u8], from: usize, to: usize) -> bool
    requires { NodesStand tree.now kinds.now from to }
    ensures { Of tree.now kinds.now from to (λ x. result ≡ elements_are_full (split_on_commas kinds.now x)) }
{
    let mut some = false;
    let mut at = from;
    while at < to {
        let shape = shape_at(tree, kinds, at, to);
        let next = node_end(tree, kinds, at, to);
        if shape == COMMA {
            if !some {
                return false;
            }
            some = false;
        } else {
            some = true;
        }
        at = next;
    }
    some
}
