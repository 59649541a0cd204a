// `type_name_read_list`.

ghost use Rattle.std.specs.Prelude.{◌≡◌, length};
ghost use Rattle.type_list.specs.ListAnswers.{list_answer};
ghost use Rattle.type_list.specs.ListPromises.{ListPromised};
ghost use Rattle.type_list.specs.AnswerNumbers.{list_code, list_numbers};
ghost use Rattle.exports.specs.Numbers.{put_front};

// `exports::list::type_name_read_list` for C.
#[unsafe(no_mangle)]
pub extern "C" fn type_name_read_list(file: &[u8], tree: &mut [u32], numbers: &mut [u32]) -> u32
    ensures returned { result ≡ list_code (list_answer file.now (length tree.old)) }
    ensures written { numbers.new ≡ put_front (list_numbers (list_answer file.now (length tree.old))) numbers.old }
    ensures promised { ListPromised file.now tree.old (list_answer file.now (length tree.old)) tree.new }
{
    exports::list::type_name_read_list(file, tree, numbers)
}
