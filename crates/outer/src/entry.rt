// The entry.

ghost use Rattle.std.specs.Prelude.{◌≡◌};
ghost use Rattle.reader.specs.Nodes.{Recorded};
ghost use Rattle.outer.specs.ByExtents.{list_at_1, word_at_0};
ghost use Rattle.outer.specs.OuterPromises.{OuterPromised};

use crate::arguments::{FIRST_ARGUMENT, count_arguments};
use reader::nodes::{LIST_NODE, NODE_WIDTH, TOKEN_NODE, node_extent, node_kind};

const WORD: usize = 0;

const LIST: usize = 1;

// The numbers begin with a word.
fn word_at_0(tree: &[u32]) -> bool
    requires { Recorded tree.now 0 }
    ensures { result ≡ word_at_0 tree.now }
{
    (node_kind(tree, WORD) == TOKEN_NODE) & (node_extent(tree, WORD) == 1)
}

// A list stands second and ends within the buffer.
fn list_at_1(tree: &[u32]) -> bool
    requires { Recorded tree.now 1 }
    ensures { result ≡ list_at_1 tree.now }
{
    let extent = node_extent(tree, LIST);
    (node_kind(tree, LIST) == LIST_NODE)
        & (1 < extent)
        & (NODE_WIDTH * (LIST + extent) <= tree.len())
}

// How many arguments the list has that the numbers of a tree begin with, behind a word; 0 if they begin otherwise. It looks at the first two nodes and
// the list's argument nodes alone.
pub fn outer_arguments(tree: &[u32]) -> u32
    ensures { OuterPromised tree.now result }
{
    if tree.len() < NODE_WIDTH * FIRST_ARGUMENT {
        return 0;
    }
    if !word_at_0(tree) {
        return 0;
    }
    if !list_at_1(tree) {
        return 0;
    }
    count_arguments(tree, LIST + node_extent(tree, LIST))
}
