// What looks like an abstract declarator, before it is checked.

ghost use Rattle.std.specs.Prelude.{◌≡◌};
ghost use Rattle.type_nodes.specs.AbstractDeclarators.{any, looks_like_abstract_declarator};
ghost use Rattle.type_nodes.specs.Stands.{NodesStand, Of};

use crate::nodes::{node_end, shape_at};
use crate::sets::is_declarator_start;
use rows::kinds::{SCOPE, STAR};

// Some node of a level has a shape.
fn any(tree: &[u32], kinds: &[u8], wanted: u8, from: usize, to: usize) -> bool
    requires { NodesStand tree.now kinds.now from to }
    ensures { Of tree.now kinds.now from to (λ x. result ≡ any kinds.now wanted x) }
{
    let mut at = from;
    while at < to {
        let shape = shape_at(tree, kinds, at, to);
        let next = node_end(tree, kinds, at, to);
        if shape == wanted {
            return true;
        }
        at = next;
    }
    false
}

pub fn looks_like_abstract_declarator(tree: &[u32], kinds: &[u8], from: usize, to: usize) -> bool
    requires { NodesStand tree.now kinds.now from to }
    ensures { Of tree.now kinds.now from to (λ x. result ≡ looks_like_abstract_declarator kinds.now x) }
{
    if is_declarator_start(shape_at(tree, kinds, from, to)) {
        return true;
    }
    if any(tree, kinds, SCOPE, from, to) {
        return any(tree, kinds, STAR, from, to);
    }
    false
}
