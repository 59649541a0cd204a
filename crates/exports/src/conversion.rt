// `type_name_widen` and `type_name_narrow`.

ghost use Rattle.std.specs.Prelude.{◌≡◌, length};
ghost use Rattle.convert.specs.Conversions.{convert_answer, narrow_outcome, output_in, widen_outcome};
ghost use Rattle.convert.specs.AnswerNumbers.{convert_code, convert_numbers};
ghost use Rattle.exports.specs.Numbers.{put_front};

use crate::numbers::put_conversion;
use convert::entry::{narrow, widen};

// Brings a file of document 01's format over as `widen` does: returns 0 if the new file stands in front of `output`, else the refusal's number; of the
// answer's four numbers as many are written as `numbers` has room for.
pub fn type_name_widen(file: &[u8], output: &mut [u8], numbers: &mut [u32]) -> u32
    ensures returned { result ≡ convert_code (convert_answer (widen_outcome file.now (length output.old))) }
    ensures numbered { numbers.new ≡ put_front (convert_numbers (convert_answer (widen_outcome file.now (length output.old)))) numbers.old }
    ensures written { output.new ≡ output_in output.old (widen_outcome file.now (length output.old)) }
{
    let answer = widen(file, output);
    put_conversion(numbers, answer)
}

// Its inverse, as `narrow`.
pub fn type_name_narrow(file: &[u8], output: &mut [u8], numbers: &mut [u32]) -> u32
    ensures returned { result ≡ convert_code (convert_answer (narrow_outcome file.now (length output.old))) }
    ensures numbered { numbers.new ≡ put_front (convert_numbers (convert_answer (narrow_outcome file.now (length output.old)))) numbers.old }
    ensures written { output.new ≡ output_in output.old (narrow_outcome file.now (length output.old)) }
{
    let answer = narrow(file, output);
    put_conversion(numbers, answer)
}
