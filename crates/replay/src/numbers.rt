// The list's numbers: four bytes each, little-endian.

ghost use Rattle.std.specs.Prelude.{◌≡◌, ◌+◌, ◌*◌, ◌≤◌, length};
ghost use Rattle.replay.specs.Replay.{number_at, number_bytes, numbers};

use rows::bytes::four_bytes;

pub const NUMBER_BYTES: usize = 4;

// Number `i` of those that `count` stored numbers and the one behind them stand for.
fn number_at(stored: &[u8], count: usize, behind: u32, i: usize) -> u32
    requires { number_bytes * count ≤ length stored.now }
    ensures { result ≡ number_at stored.now count behind i }
{
    if i < count {
        return four_bytes(stored, NUMBER_BYTES * i) as u32;
    }
    behind
}

// Fills `list`: first `count` stored numbers, then `behind` to its end.
pub fn put_numbers(stored: &[u8], count: usize, behind: u32, list: &mut [u32])
    requires { number_bytes * count ≤ length stored.now }
    ensures { list.new ≡ numbers stored.now count behind (length list.old) }
{
    for i in 0..list.len() {
        list[i] = number_at(stored, count, behind, i);
    }
}
