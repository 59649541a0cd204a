// Prints the answer to a row file that is read from standard input: document 01, end of "Rows worked out".

#![tactic(auto)]

mod level;
mod lines;

ghost use Rattle.std.specs.Prelude.{◌≡◌, ◌≤◌, length, take};
ghost use Rattle.std.specs.Counts.{IsPrefixLen};
ghost use Rattle.text.specs.Text.{Appended};
ghost use Rattle.listing.specs.Listing.{listing_length};
ghost use Rattle.listing.specs.FileListing.{file_listing, input_length, tree_length};

use crate::lines::{NODE_LINE_LENGTH, REFUSED_LINE_LENGTH, put_listing};
use reader::nodes::{NODE_WIDTH, NUMBERS_PER_TOKEN};
use rows::answer::{Refused, TypeNameError};
use rows::row::MOST_TOKENS;
use std::io;
use std::io::Write;
use stream::read_full;
use type_name::entry::parse_type_name;

// The program's own, below the format's.
const FILE_LIMIT: usize = 65536;

// Input that fills it is too long, refusal 1.
const INPUT_LENGTH: usize = FILE_LIMIT + 1;

// Room for every row.
const TREE_LENGTH: usize = NUMBERS_PER_TOKEN * MOST_TOKENS;

const TEXT_LENGTH: usize = REFUSED_LINE_LENGTH + NODE_LINE_LENGTH * (TREE_LENGTH / NODE_WIDTH);

// Puts the listing of a file, the first `size` bytes of `input`, in front of `text` and returns its length.
fn list(input: &[u8], size: usize, text: &mut [u8]) -> usize
    requires { (length input.now ≡ input_length) × (size ≤ input_length) × (length text.old ≡ listing_length tree_length) }
    ensures counted { IsPrefixLen result text.new }
    ensures listed { Appended text.old 0 (file_listing (take size input.now)) result text.new }
{
    let mut tree = [0u32; TREE_LENGTH];
    let is_too_long = FILE_LIMIT < size;
    if is_too_long {
        let too_long = Refused::from(TypeNameError::FileTooLong);
        return put_listing(text, Err(too_long), &tree);
    }
    let answer = parse_type_name(&input[..size], &mut tree);
    put_listing(text, answer, &tree)
}

fn main(rt: HostRuntime) -> io::Result<()> {
    let mut input = [0u8; INPUT_LENGTH];
    let size = read_full(&mut rt.stdin(), &mut input)?;
    let mut text = [0u8; TEXT_LENGTH];
    let end = list(&input, size, &mut text);
    rt.stdout().write_all(&text[..end])
}
