// `type_name_read_list`.

ghost use Rattle.std.specs.Prelude.{◌≡◌, length};
ghost use Rattle.type_list.specs.ListAnswers.{list_answer};
ghost use Rattle.type_list.specs.ListPromises.{ListPromised};
ghost use Rattle.type_list.specs.AnswerNumbers.{list_code, list_numbers};
ghost use Rattle.exports.specs.Numbers.{put_front};

use crate::numbers::put_list;
use type_list::entry::parse_type_list;

// Reads several type names with commas between them as `parse_type_list` does: returns 0 if all are accepted, else the refusal's number; of the
// answer's five numbers as many are written as `numbers` has room for.
pub fn type_name_read_list(file: &[u8], tree: &mut [u32], numbers: &mut [u32]) -> u32
    ensures returned { result ≡ list_code (list_answer file.now (length tree.old)) }
    ensures written { numbers.new ≡ put_front (list_numbers (list_answer file.now (length tree.old))) numbers.old }
    ensures promised { ListPromised file.now tree.old (list_answer file.now (length tree.old)) tree.new }
{
    let read = parse_type_list(file, tree);
    put_list(numbers, read)
}
