// `type_name_match`.

ghost use Rattle.std.specs.Prelude.{◌≡◌, length};
ghost use Rattle.rule_answers.specs.MatchAnswers.{match_answer};
ghost use Rattle.rule_answers.specs.MatchPromises.{MatchPromised};
ghost use Rattle.rule_answers.specs.AnswerNumbers.{match_code, match_numbers};
ghost use Rattle.exports.specs.Numbers.{put_front};

// `exports::matching::type_name_match` for C.
#[unsafe(no_mangle)]
pub extern "C" fn type_name_match(
    file: &[u8],
    rules: &[u8],
    tree: &mut [u32],
    numbers: &mut [u32],
) -> u32
    ensures returned { result ≡ match_code (match_answer file.now rules.now (length tree.old)) }
    ensures written { numbers.new ≡ put_front (match_numbers (match_answer file.now rules.now (length tree.old))) numbers.old }
    ensures promised { MatchPromised file.now rules.now tree.old (match_answer file.now rules.now (length tree.old)) tree.new }
{
    exports::matching::type_name_match(file, rules, tree, numbers)
}
