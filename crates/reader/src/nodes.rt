// Node records: document 01, "Node record".

ghost use Rattle.std.specs.Prelude.{◌≡◌, ◌+◌, ◌*◌, ◌≤◌, ◌<◌, ◌^◌, ◌∷◌, length, drop, set};
ghost use Rattle.reader.specs.Nodes.{extent_of, kind_of, node_width, Recorded, token_of, numbers_bound};

// A node's numbers: kind, token number, extent. They are what C reads: three `u32` a node in the buffer that it lends, and no struct.
pub const NODE_WIDTH: usize = 3;

// Refusal 6: the tree buffer has fewer numbers for each token.
pub const NUMBERS_PER_TOKEN: usize = 6;

pub const TOKEN_NODE: u32 = 0;

pub const PARENTHESES_NODE: u32 = 1;

pub const BRACKETS_NODE: u32 = 2;

pub const LIST_NODE: u32 = 3;

pub const ARGUMENT_NODE: u32 = 4;

// The kind of a node, by its number.
pub fn node_kind(tree: &[u32], node: usize) -> u32
    requires { Recorded tree.now node }
    ensures { result ≡ kind_of tree.now node }
{
    tree[NODE_WIDTH * node]
}

pub fn node_token(tree: &[u32], node: usize) -> usize
    requires { Recorded tree.now node }
    ensures value { result ≡ token_of tree.now node }
    ensures small { result < 2 ^ 32 }
{
    tree[NODE_WIDTH * node + 1] as usize
}

pub fn node_extent(tree: &[u32], node: usize) -> usize
    requires { Recorded tree.now node }
    ensures value { result ≡ extent_of tree.now node }
    ensures small { result < 2 ^ 32 }
{
    tree[NODE_WIDTH * node + 2] as usize
}

// Writes a node record at the front of `tree`.
pub fn put_node(tree: &mut [u32], kind: u32, token: usize, extent: usize)
    requires { (node_width ≤ length tree.old) × (token < numbers_bound) × (extent < numbers_bound) }
    ensures { tree.new ≡ kind ∷ token ∷ extent ∷ drop node_width tree.old }
{
    tree[0] = kind;
    tree[1] = token as u32;
    tree[2] = extent as u32;
}

// Writes another extent into the record of a node.
pub fn put_extent(tree: &mut [u32], node: usize, extent: usize)
    requires { Recorded tree.old node × (extent < numbers_bound) }
    ensures { tree.new ≡ set tree.old (node_width * node + 2) extent }
{
    tree[NODE_WIDTH * node + 2] = extent as u32;
}
