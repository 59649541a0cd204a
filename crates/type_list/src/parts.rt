// The parts of a row, one after the other.

ghost use Rattle.std.specs.Prelude.{◌≤◌, length};
ghost use Rattle.type_name.specs.EntrySays.{RowReady};
ghost use Rattle.type_list.specs.ListSays.{PartReady, ReadsParts, TakesPart, WithAllowance};

use crate::answer::{ListAccepted, ListAnswer, ListRefused};
use crate::part::read_part;
use reader::nodes::NODE_WIDTH;
use rows::answer::{Accepted, Refused, TypeNameError};
use rows::head::Head;

// The parts taken so far: the next one's first token, how many parts and nodes they are, and what they left of the allowance.
#[derive(Clone, Copy)]
pub struct Taken {
    pub from: usize,
    pub parts: u32,
    pub nodes: u32,
    pub left: u32,
}

// Why the next part is refused, and what is left of the allowance.
#[derive(Clone, Copy)]
pub struct PartRefused {
    pub error: TypeNameError,
    pub left: u32,
}

fn with_allowance(head: Head, allowance: u32) -> Head
    ensures { WithAllowance head allowance result }
{
    Head { allowance, ..head }
}

// The next part, read into the buffer behind the trees that stand there, within what is left of the allowance.
fn take_part(
    head: Head,
    kinds: &[u8],
    words: &[u8],
    tree: &mut [u32],
    taken: Taken,
) -> Result<Taken, PartRefused>
    requires { PartReady head kinds.now words.now tree.old taken × (taken.from ≤ length kinds.now) }
    ensures { TakesPart head kinds.now words.now tree.old taken result tree.new }
{
    let from = taken.from;
    let part_head = with_allowance(head, taken.left);
    let behind = NODE_WIDTH * (taken.nodes as usize);
    let part = read_part(
        part_head,
        &kinds[from..],
        &words[from..],
        &mut tree[behind..],
    );
    let answer = part.answer;
    match answer {
        Err(Refused { error, steps }) => Err(PartRefused {
            error,
            left: taken.left - steps,
        }),
        Ok(Accepted { nodes, steps }) => Ok(Taken {
            from: from + part.length + 1,
            parts: taken.parts + 1,
            nodes: taken.nodes + nodes,
            left: taken.left - steps,
        }),
    }
}

// The answer to a row's parts, their trees in front of the buffer.
pub fn read_parts(head: Head, kinds: &[u8], words: &[u8], tree: &mut [u32]) -> ListAnswer
    requires { RowReady kinds.now words.now tree.old }
    ensures { ReadsParts head kinds.now words.now result tree.new }
{
    let mut taken = Taken {
        from: 0,
        parts: 0,
        nodes: 0,
        left: head.allowance,
    };
    while taken.from <= kinds.len() {
        let step = take_part(head, kinds, words, tree, taken);
        match step {
            Err(PartRefused { error, left }) => {
                return Err(ListRefused {
                    error,
                    steps: head.allowance - left,
                    part: taken.parts,
                });
            }
            Ok(next) => {
                taken = next;
            }
        }
    }
    Ok(ListAccepted {
        parts: taken.parts,
        nodes: taken.nodes,
        steps: head.allowance - taken.left,
    })
}
