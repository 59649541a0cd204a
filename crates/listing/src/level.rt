// How many groups and lists stand above a node.

ghost use Rattle.std.specs.Prelude.{◌≡◌, ◌*◌, ◌≤◌, length};
ghost use Rattle.reader.specs.Nodes.{Recorded, node_width};
ghost use Rattle.listing.specs.Listing.{makes_level, stands_below, level as level_of};

use reader::nodes;
use reader::nodes::{node_extent, node_kind};

// "Level (groups and lists above)": G, B and L count, A does not.
fn makes_level(kind: u32) -> bool
    ensures { result ≡ makes_level kind }
{
    match kind {
        nodes::PARENTHESES_NODE | nodes::BRACKETS_NODE | nodes::LIST_NODE => true,
        _ => false,
    }
}

// Whether `node` stands below the group or list that is node number `above`.
fn stands_below(tree: &[u32], above: usize, node: usize) -> bool
    requires { Recorded tree.now above }
    ensures { result ≡ stands_below tree.now above node }
{
    if makes_level(node_kind(tree, above)) {
        let extent = node_extent(tree, above);
        return node < above + extent;
    }
    false
}

pub fn level(tree: &[u32], node: usize) -> usize
    requires { node_width * node ≤ length tree.now }
    ensures { result ≡ level_of tree.now node }
{
    let mut count = 0;
    for above in 0..node {
        if stands_below(tree, above, node) {
            count += 1;
        }
    }
    count
}
