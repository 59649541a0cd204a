// Where the reading stands, and what is done to the nodes. They are written in the order of their openers; while a node is open, the link to what is open
// around it stands in place of its extent, so that the tree buffer holds the stack as well.

ghost use Rattle.std.specs.Prelude.{◌≡◌, [], ◌∷◌, ◌++◌, ◌+◌, ◌*◌, ◌≤◌, ◌<◌, length, take};
ghost use Rattle.reader.specs.Nodes.{node_width, numbers_bound};
ghost use Rattle.named_reader.specs.NamedReading.{plain};
ghost use Rattle.named_reader.specs.NamedSays.{Does, Held, HeldGroup, HeldList, InList, Moves, RoomFor, argument_ended, begin_group, begin_list, group_closed, innermost_closed};

use reader::nodes::{
    ARGUMENT_NODE, LIST_NODE, NODE_WIDTH, TOKEN_NODE, node_extent, node_kind, put_extent, put_node,
};
use reader::parser::{Stop, TypeSyntaxParser};
use reader::tables::group_kind;
use rows::answer::{Delimiter, TypeNameError};

// `nodes` are begun. `inner`: one more than the number of the node that is open innermost, of the argument's in a list; 0 if none is: a number, since
// these links stand in the tree buffer in place of extents. `nesting` groups and lists are open, and `left` steps are left of the allowance. The order of
// the fields is that in which they overlap least with those of `Stop`, which shares their place in a result.
#[derive(Clone, Copy)]
pub struct NamedReader {
    pub nodes: usize,
    pub left: u32,
    pub inner: usize,
    pub nesting: usize,
}

// Writes a node record behind those of `nodes` nodes.
fn append_node(tree: &mut [u32], nodes: usize, kind: u32, token: usize, extent: usize)
    requires { RoomFor tree.old nodes 1 × (token < numbers_bound) × (extent < numbers_bound) }
    ensures front { take (node_width * (nodes + 1)) tree.new ≡ take (node_width * nodes) tree.old ++ kind ∷ token ∷ extent ∷ [] }
{
    let start = NODE_WIDTH * nodes;
    put_node(&mut tree[start..], kind, token, extent);
}

// A list is what is open innermost.
pub fn in_list(tree: &[u32], reader: NamedReader) -> bool
    requires { Held tree.now reader }
    ensures { InList tree.now reader result }
{
    if reader.inner == 0 {
        return false;
    }
    node_kind(tree, reader.inner - 1) == ARGUMENT_NODE
}

// The token at `at` by itself.
pub fn take_plain(tree: &mut [u32], reader: NamedReader, at: usize) -> Result<NamedReader, Stop>
    requires { Held tree.old reader × RoomFor tree.old reader.nodes 1 × (at < numbers_bound) }
    ensures { Does tree.old reader tree.new result (plain at) }
{
    if reader.left == 0 {
        return Err(Stop::Spent);
    }
    append_node(tree, reader.nodes, TOKEN_NODE, at, 1);
    Ok(NamedReader {
        nodes: reader.nodes + 1,
        left: reader.left - 1,
        ..reader
    })
}

// The token at `at` begins a group, whose node is of this kind.
pub fn begin_group(
    tree: &mut [u32],
    reader: NamedReader,
    at: usize,
    delimiter: Delimiter,
) -> Result<NamedReader, Stop>
    requires { Held tree.old reader × RoomFor tree.old reader.nodes 1 × (at < numbers_bound) }
    ensures { Does tree.old reader tree.new result (begin_group delimiter at) }
{
    if reader.left == 0 {
        return Err(Stop::Spent);
    }
    let left = reader.left - 1;
    if TypeSyntaxParser::MAX_NESTING_DEPTH <= reader.nesting {
        return Err(Stop::Refused(TypeNameError::NestingLimitExceeded, left));
    }
    append_node(tree, reader.nodes, group_kind(delimiter), at, reader.inner);
    let nodes = reader.nodes + 1;
    Ok(NamedReader {
        nodes,
        inner: nodes,
        nesting: reader.nesting + 1,
        left,
    })
}

// The `<` at `at` begins a list, and its first argument.
pub fn begin_list(tree: &mut [u32], reader: NamedReader, at: usize) -> Result<NamedReader, Stop>
    requires { Held tree.old reader × RoomFor tree.old reader.nodes 2 × (at + 1 < numbers_bound) }
    ensures { Does tree.old reader tree.new result (begin_list at) }
{
    if reader.left == 0 {
        return Err(Stop::Spent);
    }
    let left = reader.left - 1;
    if TypeSyntaxParser::MAX_NESTING_DEPTH <= reader.nesting {
        return Err(Stop::Refused(TypeNameError::NestingLimitExceeded, left));
    }
    append_node(tree, reader.nodes, LIST_NODE, at, reader.inner);
    append_node(tree, reader.nodes + 1, ARGUMENT_NODE, at + 1, reader.nodes);
    let nodes = reader.nodes + 2;
    Ok(NamedReader {
        nodes,
        inner: nodes,
        nesting: reader.nesting + 1,
        left,
    })
}

// The list that is open innermost is closed, and its last argument with it.
pub fn close_list(tree: &mut [u32], reader: NamedReader) -> NamedReader
    requires { HeldList tree.old reader × (reader.nodes < numbers_bound) }
    ensures { Moves tree.old reader tree.new result 0 (λ s. innermost_closed s.frames s) }
{
    let nodes = reader.nodes;
    let argument = reader.inner - 1;
    let list = node_extent(tree, argument);
    let outer = node_extent(tree, list);
    put_extent(tree, argument, nodes - argument);
    put_extent(tree, list, nodes - list);
    NamedReader {
        inner: outer,
        nesting: reader.nesting - 1,
        ..reader
    }
}

// The comma at `at` ends an argument of the list that is open innermost, and the next one begins.
pub fn next_argument(tree: &mut [u32], reader: NamedReader, at: usize) -> NamedReader
    requires { HeldList tree.old reader × RoomFor tree.old reader.nodes 1 × (at + 1 < numbers_bound) }
    ensures { Moves tree.old reader tree.new result 1 (λ s. argument_ended at s.frames s) }
{
    let nodes = reader.nodes;
    let argument = reader.inner - 1;
    let list = node_extent(tree, argument);
    put_extent(tree, argument, nodes - argument);
    append_node(tree, nodes, ARGUMENT_NODE, at + 1, list);
    NamedReader {
        nodes: nodes + 1,
        inner: nodes + 1,
        ..reader
    }
}

// The group that is open innermost is closed.
pub fn close_group(tree: &mut [u32], reader: NamedReader) -> NamedReader
    requires { HeldGroup tree.old reader × (reader.nodes < numbers_bound) }
    ensures { Moves tree.old reader tree.new result 0 (λ s. group_closed s.frames s) }
{
    let nodes = reader.nodes;
    let group = reader.inner - 1;
    let outer = node_extent(tree, group);
    put_extent(tree, group, nodes - group);
    NamedReader {
        inner: outer,
        nesting: reader.nesting - 1,
        ..reader
    }
}
