// Replays the original's answers: takes a list of cases from standard input, puts each to the entry and compares every number.
// The list is described in docs/PROOFS.md, "Replayed answers".

#![tactic(auto)]

mod compare;
mod numbers;
mod report;

ghost use Rattle.std.specs.Prelude.{◌≡◌, ◌*◌, get_or, length};
ghost use Rattle.replay.specs.Replay.{file_length, head_numbers, number_bytes, replays, stored_at};

use crate::compare::agree;
use crate::numbers::{NUMBER_BYTES, put_numbers};
use crate::report::{print_cut_off, print_total};
use exports::read::type_name_read;
use std::io;
use stream::read_full;

// What stands at the front of a case, four bytes each: the lengths of the file and of the buffer, the number that the
// buffer holds before, the answer, how many numbers of the final buffer follow the file, and the number behind them.
const HEAD_NUMBERS: usize = 9;

const HEAD_LENGTH: usize = NUMBER_BYTES * HEAD_NUMBERS;

const AT_FILE: usize = 0;

const AT_BUFFER: usize = 1;

const AT_FILL: usize = 2;

const AT_ANSWER: usize = 3;

const AT_STORED: usize = AT_ANSWER + ANSWER_NUMBERS;

const AT_BEHIND: usize = AT_STORED + 1;

const ANSWER_NUMBERS: usize = 4;

// The format's file limit, which `replay_rest` asks of the space for a file.
const FILE_LIMIT: usize = 131072;

// No case has a longer file.
const FILE_LENGTH: usize = FILE_LIMIT + 1;

// No case has a longer buffer.
const BUFFER_LENGTH: usize = 8192;

const STORED_LENGTH: usize = NUMBER_BYTES * BUFFER_LENGTH;

// A proved loop ends; no list has so many cases.
const MOST_CASES: usize = 1000000;

// What came of the next case.
#[derive(Clone, Copy)]
enum Outcome {
    Same,
    Differs,
    // The list is at its end.
    End,
    // The list ends within a case, or a length is too great.
    CutOff,
}

// Whether the input has as many bytes as there is room for.
fn read_whole(rt: &HostRuntime, bytes: &mut [u8]) -> io::Result<bool> {
    let size = read_full(&mut rt.stdin(), bytes)?;
    Ok(size == bytes.len())
}

// Whether the entry leaves the expected numbers in a buffer that held other ones before. `tree` and `expected` are lent.
fn replay(
    rt: &HostRuntime,
    case: usize,
    head: &[u32],
    file: &[u8],
    stored: &[u8],
    tree: &mut [u32],
    expected: &mut [u32],
) -> bool
    requires { (length head.now ≡ head_numbers) × (length stored.now ≡ number_bytes * get_or head.now stored_at 0) × (length tree.old ≡ length expected.old) }
    ensures { result ≡ replays head.now file.now stored.now (length tree.old) }
{
    put_numbers(stored, head[AT_STORED] as usize, head[AT_BEHIND], expected);
    put_numbers(stored, 0, head[AT_FILL], tree);
    let mut answer = [0u32; ANSWER_NUMBERS];
    let returned = [type_name_read(file, tree, &mut answer)];
    if !agree(
        rt,
        case,
        b"returned",
        &head[AT_ANSWER..AT_ANSWER + 1],
        &returned,
    ) {
        return false;
    }
    if !agree(rt, case, b"answer", &head[AT_ANSWER..AT_STORED], &answer) {
        return false;
    }
    agree(rt, case, b"buffer", expected, tree)
}

// Takes the rest of a case from standard input and replays it, in the space that is lent.
fn replay_rest(
    rt: &HostRuntime,
    case: usize,
    head: &[u32],
    file: &mut [u8],
    stored: &mut [u8],
    tree: &mut [u32],
    expected: &mut [u32],
) -> io::Result<Outcome>
    requires head_len { (length head.now ≡ head_numbers) × (length file.old ≡ file_length) }
    requires stored_len { (length stored.old ≡ number_bytes * length expected.old) × (length tree.old ≡ length expected.old) }
{
    let file_length = head[AT_FILE] as usize;
    let buffer_length = head[AT_BUFFER] as usize;
    let stored_numbers = head[AT_STORED] as usize;
    if file.len() < file_length {
        return Ok(Outcome::CutOff);
    }
    if expected.len() < buffer_length {
        return Ok(Outcome::CutOff);
    }
    if expected.len() < stored_numbers {
        return Ok(Outcome::CutOff);
    }
    let stored_length = NUMBER_BYTES * stored_numbers;
    if !read_whole(rt, &mut file[..file_length])? {
        return Ok(Outcome::CutOff);
    }
    if !read_whole(rt, &mut stored[..stored_length])? {
        return Ok(Outcome::CutOff);
    }
    if replay(
        rt,
        case,
        head,
        &file[..file_length],
        &stored[..stored_length],
        &mut tree[..buffer_length],
        &mut expected[..buffer_length],
    ) {
        return Ok(Outcome::Same);
    }
    Ok(Outcome::Differs)
}

fn replay_next(rt: &HostRuntime, case: usize) -> io::Result<Outcome> {
    let mut bytes = [0u8; HEAD_LENGTH];
    let got = read_full(&mut rt.stdin(), &mut bytes)?;
    if got == 0 {
        return Ok(Outcome::End);
    }
    if got < HEAD_LENGTH {
        return Ok(Outcome::CutOff);
    }
    let mut head = [0u32; HEAD_NUMBERS];
    put_numbers(&bytes, HEAD_NUMBERS, 0, &mut head);
    let mut file = [0u8; FILE_LENGTH];
    let mut stored = [0u8; STORED_LENGTH];
    let mut tree = [0u32; BUFFER_LENGTH];
    let mut expected = [0u32; BUFFER_LENGTH];
    replay_rest(
        rt,
        case,
        &head,
        &mut file,
        &mut stored,
        &mut tree,
        &mut expected,
    )
}

fn main(rt: HostRuntime) -> io::Result<()> {
    let mut replayed: usize = 0;
    let mut differing: usize = 0;
    for case in 0..MOST_CASES {
        match replay_next(&rt, case)? {
            Outcome::Same => {}
            Outcome::Differs => differing += 1,
            Outcome::End => break,
            Outcome::CutOff => {
                print_cut_off(&rt)?;
                break;
            }
        }
        replayed += 1;
    }
    print_total(&rt, replayed, differing)
}
