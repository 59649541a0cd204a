// `type_name_read`. A slice is a pointer and a length.

ghost use Rattle.std.specs.Prelude.{◌≡◌, length};
ghost use Rattle.type_name.specs.Answers.{answer};
ghost use Rattle.type_name.specs.Promises.{Promised};
ghost use Rattle.type_name.specs.AnswerNumbers.{answer_code, answer_numbers};
ghost use Rattle.exports.specs.Numbers.{put_front};

// `exports::read::type_name_read` for C.
#[unsafe(no_mangle)]
pub extern "C" fn type_name_read(file: &[u8], tree: &mut [u32], numbers: &mut [u32]) -> u32
    ensures returned { result ≡ answer_code (answer file.now (length tree.old)) }
    ensures written { numbers.new ≡ put_front (answer_numbers (answer file.now (length tree.old))) numbers.old }
    ensures promised { Promised file.now tree.old (answer file.now (length tree.old)) tree.new }
{
    exports::read::type_name_read(file, tree, numbers)
}
