// The two conversions.

ghost use Rattle.std.specs.Prelude.{◌≡◌, length};
ghost use Rattle.convert.specs.Fields.{fields_of};
ghost use Rattle.convert.specs.Conversions.{convert_answer, narrow_outcome, output_in, widen_outcome, with_output};
ghost use Rattle.convert.specs.ConvertSays.{Counted, bytes_in};

use crate::check::{Sound, check_file};
use crate::standards::{narrowed_standard, widened_standard};
use crate::write::put_file;
use rows::answer::TypeNameError;
use rows::format::{Format, current, old, token_length};
use rows::head::{AT_LANGUAGE, AT_STANDARD};

// How many bytes stand in front of the output.
pub type ConvertAnswer = Result<u32, TypeNameError>;

// A sound file in another format, its head with this standard, where it has so many bytes: refusal 6, or they stand in the output.
fn hand_over(
    from: Format,
    to: Format,
    standard: u8,
    file: &[u8],
    bytes: usize,
    output: &mut [u8],
) -> ConvertAnswer
    requires { Counted from to standard file.now bytes }
    ensures answered { result ≡ convert_answer (with_output (length output.old) (bytes_in to standard (fields_of from file.now))) }
    ensures written { output.new ≡ output_in output.old (with_output (length output.old) (bytes_in to standard (fields_of from file.now))) }
{
    if output.len() < bytes {
        return Err(TypeNameError::ShortBuffer);
    }
    let written = put_file(from, to, standard, file, output);
    Ok(written as u32)
}

// A file of document 01's format in the format that every entry reads.
pub fn widen(file: &[u8], output: &mut [u8]) -> ConvertAnswer
    ensures answered { result ≡ convert_answer (widen_outcome file.now (length output.old)) }
    ensures written { output.new ≡ output_in output.old (widen_outcome file.now (length output.old)) }
{
    let from = old();
    let to = current();
    let Sound { count, narrow: _ } = check_file(from, file)?;
    let standard = widened_standard(file[AT_STANDARD]);
    let more = token_length(to) - token_length(from);
    hand_over(from, to, standard, file, file.len() + more * count, output)
}

// The inverse: refusals 7 and 1 come once all records pass 4.
pub fn narrow(file: &[u8], output: &mut [u8]) -> ConvertAnswer
    ensures answered { result ≡ convert_answer (narrow_outcome file.now (length output.old)) }
    ensures written { output.new ≡ output_in output.old (narrow_outcome file.now (length output.old)) }
{
    let from = current();
    let to = old();
    let Sound { count, narrow } = check_file(from, file)?;
    let standard = narrowed_standard(file[AT_LANGUAGE], file[AT_STANDARD]);
    let less = token_length(from) - token_length(to);
    let bytes = file.len() - less * count;
    let limit = to.file_limit as usize;
    if !narrow {
        return Err(TypeNameError::OffsetOver32Bits);
    }
    if limit < bytes {
        return Err(TypeNameError::FileTooLong);
    }
    hand_over(from, to, standard, file, bytes, output)
}
