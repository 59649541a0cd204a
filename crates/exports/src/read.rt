// `type_name_read`.

ghost use Rattle.std.specs.Prelude.{◌≡◌, length};
ghost use Rattle.type_name.specs.Answers.{answer};
ghost use Rattle.type_name.specs.Promises.{Promised};
ghost use Rattle.type_name.specs.AnswerNumbers.{answer_code, answer_numbers};
ghost use Rattle.exports.specs.Numbers.{put_front};

use crate::numbers::put_answer;
use type_name::entry::parse_type_name;

// Reads a type name as `parse_type_name` does: returns 0 if it is accepted, else the refusal's number; of the answer's four numbers as many are
// written as `numbers` has room for.
pub fn type_name_read(file: &[u8], tree: &mut [u32], numbers: &mut [u32]) -> u32
    ensures returned { result ≡ answer_code (answer file.now (length tree.old)) }
    ensures written { numbers.new ≡ put_front (answer_numbers (answer file.now (length tree.old))) numbers.old }
    ensures promised { Promised file.now tree.old (answer file.now (length tree.old)) tree.new }
{
    let read = parse_type_name(file, tree);
    put_answer(numbers, read)
}
