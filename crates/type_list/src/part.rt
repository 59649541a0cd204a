// The first part of a row.

ghost use Rattle.std.specs.Prelude.{◌≡◌};
ghost use Rattle.type_name.specs.EntrySays.{RowReady};
ghost use Rattle.type_list.specs.Parts.{up_to_cut};
ghost use Rattle.type_list.specs.ListSays.{ReadsPart, length_by};

use rows::answer::{Answer, TypeNameError, refusal_of};
use rows::head::Head;
use type_name::tree::read_checked;

// `length`: how many tokens it has.
#[derive(Clone, Copy)]
pub struct Part {
    pub length: usize,
    pub answer: Answer,
}

// Refusal 13: a comma outside brackets and angles, where a part ends.
const CUT_NUMBER: u32 = 13;

// How many of `count` tokens are the first part, by the refusal of them all.
fn up_to_cut(error: TypeNameError, count: usize) -> usize
    ensures { result ≡ up_to_cut count error }
{
    let refusal = refusal_of(error);
    if refusal.number == CUT_NUMBER {
        return refusal.token as usize;
    }
    count
}

// How many of `count` tokens are the first part, by the answer to them all.
fn length_by(answer: Answer, count: usize) -> usize
    ensures { result ≡ length_by count answer }
{
    match answer {
        Ok(_) => count,
        Err(refused) => up_to_cut(refused.error, count),
    }
}

// Reads all tokens as one part first: only where that meets a cut, the part before it is read anew.
pub fn read_part(head: Head, kinds: &[u8], words: &[u8], tree: &mut [u32]) -> Part
    requires { RowReady kinds.now words.now tree.old }
    ensures { ReadsPart head kinds.now words.now result tree.new }
{
    let all = read_checked(head, kinds, words, tree);
    let length = length_by(all, kinds.len());
    if length < kinds.len() {
        let answer = read_checked(head, &kinds[..length], &words[..length], tree);
        return Part { length, answer };
    }
    Part {
        length,
        answer: all,
    }
}
