// Reading from a stream of bytes.

#![tactic(auto)]

ghost use Rattle.std.specs.Prelude.{◌<◌, IfOk, length, take};
ghost use Rattle.std.specs.Counts.{IsPrefixLen};
ghost use Rattle.std.specs.Io.KnownBytes.{Consumes, IsAtEnd};

use std::io;
use std::io::Read;

// Reads until `bytes` is full or the stream ends, and returns how many bytes it put at the front.
pub fn read_full<R: Read>(stream: &mut R, bytes: &mut [u8]) -> io::Result<usize>
    ensures counted { IfOk result (λ n. IsPrefixLen n bytes.new) }
    ensures taken { IfOk result (λ n. Consumes (R.remaining stream.old) (R.remaining stream.new) (take n bytes.new)) }
    ensures ended { IfOk result (λ n. n < length bytes.new → IsAtEnd (R.remaining stream.new)) }
{
    let mut done = 0;
    while done < bytes.len() {
        let got = stream.read(&mut bytes[done..])?;
        if got == 0 {
            break;
        }
        done += got;
    }
    Ok(done)
}
