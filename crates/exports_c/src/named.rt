// `type_name_read_named`. A slice is a pointer and a length.

ghost use Rattle.std.specs.Prelude.{◌≡◌, length};
ghost use Rattle.type_name.specs.AnswerNumbers.{answer_code, answer_numbers};
ghost use Rattle.named_answers.specs.NamedAnswers.{answer_named};
ghost use Rattle.named_answers.specs.NamedPromises.{NamedPromised};
ghost use Rattle.exports.specs.Numbers.{put_front};

// `exports::named::type_name_read_named` for C.
#[unsafe(no_mangle)]
pub extern "C" fn type_name_read_named(
    file: &[u8],
    names: &[u8],
    tree: &mut [u32],
    numbers: &mut [u32],
) -> u32
    ensures returned { result ≡ answer_code (answer_named file.now names.now (length tree.old)) }
    ensures written { numbers.new ≡ put_front (answer_numbers (answer_named file.now names.now (length tree.old))) numbers.old }
    ensures promised { NamedPromised file.now names.now tree.old (answer_named file.now names.now (length tree.old)) tree.new }
{
    exports::named::type_name_read_named(file, names, tree, numbers)
}
