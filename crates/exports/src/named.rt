// `type_name_read_named`.

ghost use Rattle.std.specs.Prelude.{◌≡◌, length};
ghost use Rattle.type_name.specs.AnswerNumbers.{answer_code, answer_numbers};
ghost use Rattle.named_answers.specs.NamedAnswers.{answer_named};
ghost use Rattle.named_answers.specs.NamedPromises.{NamedPromised};
ghost use Rattle.exports.specs.Numbers.{put_front};

use crate::numbers::put_answer;
use named_answers::entry::parse_named_type_name;

// Reads a type name of C++ as `parse_named_type_name` does: returns 0 if it is accepted, else the refusal's number; of the answer's four numbers as many
// are written as `numbers` has room for.
pub fn type_name_read_named(file: &[u8], names: &[u8], tree: &mut [u32], numbers: &mut [u32]) -> u32
    ensures returned { result ≡ answer_code (answer_named file.now names.now (length tree.old)) }
    ensures written { numbers.new ≡ put_front (answer_numbers (answer_named file.now names.now (length tree.old))) numbers.old }
    ensures promised { NamedPromised file.now names.now tree.old (answer_named file.now names.now (length tree.old)) tree.new }
{
    let read = parse_named_type_name(file, names, tree);
    put_answer(numbers, read)
}
