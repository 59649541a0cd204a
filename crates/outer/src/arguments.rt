// The arguments of the list that a tree begins with.

ghost use Rattle.std.specs.Prelude.{◌≡◌, ◌*◌, ◌-◌, ◌≤◌, ◌<◌, ◌^◌, length};
ghost use Rattle.reader.specs.Nodes.{node_width};
ghost use Rattle.outer.specs.ByExtents.{is_argument, arguments_from};

use reader::nodes::{ARGUMENT_NODE, node_extent, node_kind};

// The word is node 0, the list node 1.
pub const FIRST_ARGUMENT: usize = 2;

// An argument stands at a node of the list that ends before node `end`.
fn is_argument(tree: &[u32], at: usize, end: usize) -> bool
    requires { (at < end) × (node_width * end ≤ length tree.now) }
    ensures { result ≡ is_argument tree.now at (end - at) }
{
    let extent = node_extent(tree, at);
    (node_kind(tree, at) == ARGUMENT_NODE) & (0 < extent) & (extent <= end - at)
}

// How many arguments the list that ends before node `end` has; 0, and no `None`, if anything else stands in it: C is given the number as it is.
pub fn count_arguments(tree: &[u32], end: usize) -> u32
    requires { (2 ≤ end) × (end ≤ 2 ^ 32) × (node_width * end ≤ length tree.now) }
    ensures { result ≡ arguments_from tree.now (end - 2) 0 2 0 }
{
    let mut at = FIRST_ARGUMENT;
    let mut found = 0;
    while at < end {
        if !is_argument(tree, at, end) {
            return 0;
        }
        at += node_extent(tree, at);
        found += 1;
    }
    found
}
