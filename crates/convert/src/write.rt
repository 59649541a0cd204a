// A file's fields written in another format.

ghost use Rattle.std.specs.Prelude.{◌+◌, ◌≤◌, get_or, length};
ghost use Rattle.rows.specs.Format.{allowance_bytes, at_allowance, at_flag, at_language, head_length};
ghost use Rattle.rows.specs.Records.{little_endian};
ghost use Rattle.text.specs.Text.{Appended};
ghost use Rattle.text.specs.Puts.{Puts};
ghost use Rattle.convert.specs.Fields.{fields_of, head_bytes, token_bytes};
ghost use Rattle.convert.specs.ConvertSays.{FileReady, RecordReady, RecordsReady, bytes_in, fields_there, records_in};

use rows::bytes::{four_bytes, two_bytes};
use rows::format::{Format, span_bytes, token_length};
use rows::head::{AT_ALLOWANCE, AT_FLAG, AT_KIND, AT_LANGUAGE, HEAD_LENGTH};
use rows::token::span;
use text::Text;

const SHORT_BYTES: usize = 2;

const ALLOWANCE_BYTES: usize = 4;

// The head record.
fn put_head(to: Format, standard: u8, file: &[u8], output: &mut Text)
    requires { (head_length ≤ length file.now) × (output.old.end + head_length ≤ length output.old.bytes.now) }
    ensures { Puts output.old (head_bytes to (get_or file.now at_language 0) standard (get_or file.now at_flag 0) (little_endian allowance_bytes file.now at_allowance)) output.new }
{
    output.put_little_endian(HEAD_LENGTH, SHORT_BYTES);
    output.put_little_endian(to.head_kind, SHORT_BYTES);
    output.put_byte(file[AT_LANGUAGE]);
    output.put_byte(standard);
    output.put_byte(file[AT_FLAG]);
    output.put_little_endian(four_bytes(file, AT_ALLOWANCE), ALLOWANCE_BYTES);
}

// The token record at a byte offset.
fn put_record(from: Format, to: Format, file: &[u8], at: usize, output: &mut Text)
    requires { RecordReady from to file.now at output.old.bytes.now output.old.end }
    ensures { Puts output.old (token_bytes to (fields_there from file.now at)) output.new }
{
    let size = two_bytes(file, at);
    let word = at + token_length(from);
    let next = at + size;
    let span = span(from, file, at);
    let width = to.span_width;
    let bytes = span_bytes(width);
    output.put_little_endian(token_length(to) + (next - word), SHORT_BYTES);
    output.put_little_endian(two_bytes(file, at + AT_KIND), SHORT_BYTES);
    output.put_little_endian(span.start, bytes);
    output.put_little_endian(span.end, bytes);
    output.put_bytes(&file[word..next]);
}

// Every token record of a file, by one walk.
fn put_records(from: Format, to: Format, file: &[u8], output: &mut Text)
    requires { RecordsReady from to file.now output.old.bytes.now output.old.end }
    ensures { Puts output.old (records_in to (fields_of from file.now)) output.new }
{
    let mut at = HEAD_LENGTH;
    while at < file.len() {
        put_record(from, to, file, at, output);
        at += two_bytes(file, at);
    }
}

// A sound file, its head with this standard.
pub fn put_file(from: Format, to: Format, standard: u8, file: &[u8], output: &mut [u8]) -> usize
    requires { FileReady from to standard file.now output.old }
    ensures { Appended output.old 0 (bytes_in to standard (fields_of from file.now)) result output.new }
{
    let mut written = Text::new(output);
    put_head(to, standard, file, &mut written);
    put_records(from, to, file, &mut written);
    written.len()
}
