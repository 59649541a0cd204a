// What `replay` prints. No contract can speak of what is written to standard output: a `print_` function says nothing, and the text that it writes is said
// by the `put_` function above it. No `Display`, for the same reason as in the listing.

ghost use Rattle.std.specs.Prelude.{◌+◌, ◌≤◌, length};
ghost use Rattle.text.specs.Text.{most_digits};
ghost use Rattle.text.specs.Puts.{Puts};
ghost use Rattle.replay.specs.Report.{difference, labelled, line_length, part_length, place_length, place_text, total, values_length, values_text};

use std::io;
use std::io::Write;
use text::{MOST_DIGITS, Text};

// The longest name of a part, `returned`.
const PART_LENGTH: usize = 8;

// `case `, `, ` and ` `.
const PLACE_WORDS: usize = 8;

// `: expected `, `, got ` and the newline.
const VALUES_WORDS: usize = 18;

const PLACE_LENGTH: usize = PLACE_WORDS + MOST_DIGITS + PART_LENGTH + MOST_DIGITS;

const VALUES_LENGTH: usize = VALUES_WORDS + MOST_DIGITS + MOST_DIGITS;

// The longest line.
const LINE_LENGTH: usize = PLACE_LENGTH + VALUES_LENGTH;

// A number behind its label.
fn put_labelled(text: &mut Text, label: &[u8], number: usize)
    requires { text.old.end + length label.now + most_digits ≤ length text.old.bytes.now }
    ensures { Puts text.old (labelled label.now number) text.new }
{
    text.put_bytes(label);
    text.put_decimal(number);
}

fn put_place(text: &mut Text, case: usize, part: &[u8], place: usize)
    requires { (text.old.end + place_length ≤ length text.old.bytes.now) × (length part.now ≤ part_length) }
    ensures { Puts text.old (place_text case part.now place) text.new }
{
    put_labelled(text, b"case ", case);
    text.put_bytes(b", ");
    text.put_bytes(part);
    put_labelled(text, b" ", place);
}

fn put_values(text: &mut Text, expected: u32, given: u32)
    requires { text.old.end + values_length ≤ length text.old.bytes.now }
    ensures { Puts text.old (values_text expected given) text.new }
{
    put_labelled(text, b": expected ", expected as usize);
    put_labelled(text, b", got ", given as usize);
    text.put_bytes(b"\n");
}

// `case 7, buffer 3: expected 1, got 0`: number 3 of the buffer after case 7, both counted from 0.
fn put_difference(
    text: &mut Text,
    case: usize,
    part: &[u8],
    place: usize,
    expected: u32,
    given: u32,
)
    requires { (text.old.end + line_length ≤ length text.old.bytes.now) × (length part.now ≤ part_length) }
    ensures put { Puts text.old (difference case part.now place expected given) text.new }
    ensures within { text.new.end ≤ text.old.end + line_length }
{
    put_place(text, case, part, place);
    put_values(text, expected, given);
}

// A line that cannot be written is left out, and the case counts all the same.
pub fn print_difference(
    rt: &HostRuntime,
    case: usize,
    part: &[u8],
    place: usize,
    expected: u32,
    given: u32,
)
    requires { length part.now ≤ part_length }
{
    let mut line = [0u8; LINE_LENGTH];
    let mut text = Text::new(&mut line);
    put_difference(&mut text, case, part, place, expected, given);
    let end = text.len();
    let _ = rt.stdout().write_all(&line[..end]);
}

fn put_total(text: &mut Text, replayed: usize, differing: usize)
    requires { text.old.end + line_length ≤ length text.old.bytes.now }
    ensures put { Puts text.old (total replayed differing) text.new }
    ensures within { text.new.end ≤ text.old.end + line_length }
{
    text.put_decimal(replayed);
    text.put_bytes(b" replayed, ");
    text.put_decimal(differing);
    text.put_bytes(b" differ\n");
}

pub fn print_total(rt: &HostRuntime, replayed: usize, differing: usize) -> io::Result<()> {
    let mut line = [0u8; LINE_LENGTH];
    let mut text = Text::new(&mut line);
    put_total(&mut text, replayed, differing);
    let end = text.len();
    rt.stdout().write_all(&line[..end])
}

pub fn print_cut_off(rt: &HostRuntime) -> io::Result<()> {
    rt.stdout().write_all(b"the list is cut off\n")
}
