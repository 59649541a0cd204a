// `type_name_widen` and `type_name_narrow`.

ghost use Rattle.std.specs.Prelude.{◌≡◌, length};
ghost use Rattle.convert.specs.Conversions.{convert_answer, narrow_outcome, output_in, widen_outcome};
ghost use Rattle.convert.specs.AnswerNumbers.{convert_code, convert_numbers};
ghost use Rattle.exports.specs.Numbers.{put_front};

// `exports::conversion::type_name_widen` for C.
#[unsafe(no_mangle)]
pub extern "C" fn type_name_widen(file: &[u8], output: &mut [u8], numbers: &mut [u32]) -> u32
    ensures returned { result ≡ convert_code (convert_answer (widen_outcome file.now (length output.old))) }
    ensures numbered { numbers.new ≡ put_front (convert_numbers (convert_answer (widen_outcome file.now (length output.old)))) numbers.old }
    ensures written { output.new ≡ output_in output.old (widen_outcome file.now (length output.old)) }
{
    exports::conversion::type_name_widen(file, output, numbers)
}

// `exports::conversion::type_name_narrow` for C.
#[unsafe(no_mangle)]
pub extern "C" fn type_name_narrow(file: &[u8], output: &mut [u8], numbers: &mut [u32]) -> u32
    ensures returned { result ≡ convert_code (convert_answer (narrow_outcome file.now (length output.old))) }
    ensures numbered { numbers.new ≡ put_front (convert_numbers (convert_answer (narrow_outcome file.now (length output.old)))) numbers.old }
    ensures written { output.new ≡ output_in output.old (narrow_outcome file.now (length output.old)) }
{
    exports::conversion::type_name_narrow(file, output, numbers)
}
