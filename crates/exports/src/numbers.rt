// Answers as numbers, in an array that the caller lends.

ghost use Rattle.std.specs.Prelude.{◌≡◌};
ghost use Rattle.type_name.specs.AnswerNumbers.{answer_code, answer_numbers};
ghost use Rattle.rule_answers.specs.AnswerNumbers.{match_code, match_numbers, overlap_code, overlap_numbers};
ghost use Rattle.type_list.specs.AnswerNumbers.{list_code, list_numbers};
ghost use Rattle.convert.specs.AnswerNumbers.{convert_code, convert_numbers};
ghost use Rattle.exports.specs.Numbers.{put_front};

use convert::entry::ConvertAnswer;
use rows::answer::{Accepted, Answer, Refused, refusal_of};
use rule_answers::matching::{MatchAnswer, Matched};
use rule_answers::overlap::OverlapAnswer;
use type_list::answer::{ListAccepted, ListAnswer, ListRefused};

// As many of `numbers` as `array` has room for.
pub fn put_front(array: &mut [u32], numbers: &[u32])
    ensures { array.new ≡ put_front numbers.now array.old }
{
    let room = array.len().min(numbers.len());
    array[..room].copy_from_slice(&numbers[..room]);
}

// Puts the answer's numbers, and returns 0 if it is accepted, else the refusal's number.
pub fn put_answer(array: &mut [u32], answer: Answer) -> u32
    ensures returned { result ≡ answer_code answer }
    ensures written { array.new ≡ put_front (answer_numbers answer) array.old }
{
    match answer {
        Ok(Accepted { nodes, steps }) => {
            let numbers = [0, nodes, steps, 0];
            put_front(array, &numbers);
            0
        }
        Err(Refused { error, steps }) => {
            let refusal = refusal_of(error);
            let numbers = [refusal.number, refusal.token, refusal.detail, steps];
            put_front(array, &numbers);
            refusal.number
        }
    }
}

// The same of the answer to a match.
pub fn put_match(array: &mut [u32], answer: MatchAnswer) -> u32
    ensures returned { result ≡ match_code answer }
    ensures written { array.new ≡ put_front (match_numbers answer) array.old }
{
    match answer {
        Ok(
            Matched {
                nodes,
                steps,
                place,
            },
        ) => {
            let numbers = [0, nodes, steps, place];
            put_front(array, &numbers);
            0
        }
        Err(refused) => put_answer(array, Err(refused)),
    }
}

// The same of the answer to a search for an overlap.
pub fn put_overlap(array: &mut [u32], answer: OverlapAnswer) -> u32
    ensures returned { result ≡ overlap_code answer }
    ensures written { array.new ≡ put_front (overlap_numbers answer) array.old }
{
    match answer {
        Ok(Some(overlap)) => {
            let numbers = [0, overlap.earlier, overlap.later, overlap.bytes];
            put_front(array, &numbers);
            0
        }
        Ok(None) => {
            let numbers = [0, 0, 0, 0];
            put_front(array, &numbers);
            0
        }
        Err(error) => put_answer(array, Err(Refused::from(error))),
    }
}

// The same of the answer to a list of types.
pub fn put_list(array: &mut [u32], answer: ListAnswer) -> u32
    ensures returned { result ≡ list_code answer }
    ensures written { array.new ≡ put_front (list_numbers answer) array.old }
{
    match answer {
        Ok(
            ListAccepted {
                parts,
                nodes,
                steps,
            },
        ) => {
            let numbers = [0, nodes, steps, 0, parts];
            put_front(array, &numbers);
            0
        }
        Err(ListRefused { error, steps, part }) => {
            let refusal = refusal_of(error);
            let numbers = [refusal.number, refusal.token, refusal.detail, steps, part];
            put_front(array, &numbers);
            refusal.number
        }
    }
}

// The same of the answer to a conversion.
pub fn put_conversion(array: &mut [u32], answer: ConvertAnswer) -> u32
    ensures returned { result ≡ convert_code answer }
    ensures written { array.new ≡ put_front (convert_numbers answer) array.old }
{
    match answer {
        Ok(bytes) => {
            let numbers = [0, bytes, 0, 0];
            put_front(array, &numbers);
            0
        }
        Err(error) => put_answer(array, Err(Refused::from(error))),
    }
}
