// What the tree buffer holds in the end: the tree of an accepted row, and zeros.

ghost use Rattle.std.specs.Prelude.{◌≡◌, length, replicate};
ghost use Rattle.type_name.specs.EntrySays.{TreeFits, settled};

use reader::nodes::NODE_WIDTH;
use rows::answer::Answer;

// `answer` with the tree that stands in front of the buffer if it is accepted.
pub fn settle(tree: &mut [u32], answer: Answer)
    requires { TreeFits answer tree.old }
    ensures { tree.new ≡ settled tree.old answer }
{
    match answer {
        Ok(accepted) => tree[NODE_WIDTH * (accepted.nodes as usize)..].fill(0),
        Err(_) => tree.fill(0),
    }
}
