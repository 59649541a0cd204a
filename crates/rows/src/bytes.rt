// Bytes: the numbers of a record, "All record numbers are little-endian", and two runs of bytes compared. Each width is one call of std; one function with
// the width as its parameter would need a loop.

ghost use Rattle.std.specs.Prelude.{◌≡◌, ◌+◌, ◌^◌, ◌<◌, ◌≤◌, length};
ghost use Rattle.rows.specs.Records.{byte_values, little_endian};
ghost use Rattle.rows.specs.Words.{same_exactly};

// The number of two bytes at a byte offset.
pub fn two_bytes(file: &[u8], at: usize) -> usize
    requires { at + 2 ≤ length file.now }
    ensures value { result ≡ little_endian 2 file.now at }
    ensures small { result < byte_values ^ 2 }
{
    usize::from(u16::from_le_bytes([file[at], file[at + 1]]))
}

// The number of four bytes at a byte offset.
pub fn four_bytes(file: &[u8], at: usize) -> usize
    requires { at + 4 ≤ length file.now }
    ensures value { result ≡ little_endian 4 file.now at }
    ensures small { result < byte_values ^ 4 }
{
    u32::from_le_bytes([file[at], file[at + 1], file[at + 2], file[at + 3]]) as usize
}

// The number of eight bytes at a byte offset.
pub fn eight_bytes(file: &[u8], at: usize) -> usize
    requires { at + 8 ≤ length file.now }
    ensures { result ≡ little_endian 8 file.now at }
{
    u64::from_le_bytes([
        file[at],
        file[at + 1],
        file[at + 2],
        file[at + 3],
        file[at + 4],
        file[at + 5],
        file[at + 6],
        file[at + 7],
    ]) as usize
}

pub fn same_bytes(first: &[u8], second: &[u8]) -> bool
    ensures { result ≡ same_exactly first.now second.now }
{
    first == second
}
