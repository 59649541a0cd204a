// Text and record numbers, made in a lent buffer.

#![tactic(auto)]

ghost use Rattle.std.specs.Prelude.{◌≡◌, [], ◌∷◌, ◌+◌, ◌≤◌, ◌<◌, length};
ghost use Rattle.text.specs.Text.{Appended, decimal, ended, fits, handed, last_digit, last_digits, little_endian_bytes, longest_ended, most_digits};
ghost use Rattle.text.specs.Puts.{Puts};

const BASE: usize = 10;

// No `usize` has more decimal digits.
pub const MOST_DIGITS: usize = 20;

// One digit, and so many more.
const MORE_DIGITS: usize = MOST_DIGITS - 1;

// The longest number with the byte that ends it.
pub const LONGEST_ENDED: usize = MOST_DIGITS + 1;

// A byte is a number below this.
const BYTE_VALUES: usize = 256;

// The last decimal digit in ASCII.
fn digit(number: usize) -> u8
    ensures { result ≡ last_digit number }
{
    b'0' + (number % BASE) as u8
}

// Bytes copied behind the first `at` of a buffer. A function over two slices, which overlap nowhere, so that the loop becomes a call of memcpy: through a
// text's `bytes` words of 255 bytes took 1.2 to 1.4 times as long. Byte by byte: the slice's own copy becomes a call of memmove, and the library is to need
// memcpy and memset alone.
fn copy_bytes(buffer: &mut [u8], at: usize, bytes: &[u8])
    requires { at + length bytes.now ≤ length buffer.old }
    ensures { Appended buffer.old at bytes.now (at + length bytes.now) buffer.new }
{
    for i in 0..bytes.len() {
        buffer[at + i] = bytes[i];
    }
}

// Bytes that are made in a lent buffer: the first `end` of it.
#[derive(Drop)]
pub struct Text<'a> {
    pub bytes: &'a mut [u8],
    pub end: usize,
}

impl<'a> Text<'a> {
    // No bytes yet.
    pub fn new(bytes: &'a mut [u8]) -> Text<'a>
        ensures same_buffer { result.bytes.ghost_name ≡ bytes.entry.ghost_name }
        ensures begins { (result.bytes.now ≡ bytes.old) × (result.end ≡ 0) }
    {
        Text { bytes, end: 0 }
    }

    // How many bytes there are.
    pub fn len(&self) -> usize
        ensures { result ≡ self.now.end }
    {
        self.end
    }

    pub fn put_byte(&mut self, byte: u8)
        requires { self.old.end < length self.old.bytes.now }
        ensures { Puts self.old (byte ∷ []) self.new }
    {
        self.bytes[self.end] = byte;
        self.end += 1;
    }

    pub fn put_bytes(&mut self, bytes: &[u8])
        requires { self.old.end + length bytes.now ≤ length self.old.bytes.now }
        ensures { Puts self.old bytes.now self.new }
    {
        copy_bytes(self.bytes, self.end, bytes);
        self.end += bytes.len();
    }

    // The decimal digits of a number, the last `more` and one of them if it has more.
    fn put_digits(&mut self, number: usize, more: usize)
        requires { self.old.end + more < length self.old.bytes.now }
        ensures { Puts self.old (last_digits more number) self.new }
    {
        if more == 0 {
            self.put_byte(digit(number));
            return;
        }
        if number < BASE {
            self.put_byte(digit(number));
            return;
        }
        self.put_digits(number / BASE, more - 1);
        self.put_byte(digit(number));
    }

    pub fn put_decimal(&mut self, number: usize)
        requires { self.old.end + most_digits ≤ length self.old.bytes.now }
        ensures { Puts self.old (decimal number) self.new }
    {
        self.put_digits(number, MORE_DIGITS);
    }

    // A number and the byte that ends it.
    pub fn put_ended(&mut self, number: usize, end: u8)
        requires { self.old.end + longest_ended ≤ length self.old.bytes.now }
        ensures { Puts self.old (ended number end) self.new }
    {
        self.put_decimal(number);
        self.put_byte(end);
    }

    // A record's number in so many bytes, the lowest first.
    pub fn put_little_endian(&mut self, number: usize, width: usize)
        requires { self.old.end + width ≤ length self.old.bytes.now }
        ensures { Puts self.old (little_endian_bytes width number) self.new }
    {
        if width == 0 {
            return;
        }
        self.put_byte((number % BYTE_VALUES) as u8);
        self.put_little_endian(number / BYTE_VALUES, width - 1);
    }
}

// Puts a whole output in front of a caller's buffer, and says whether it has room: if not, the buffer is not touched.
pub fn hand_over(buffer: &mut [u8], output: &[u8]) -> bool
    ensures told { result ≡ fits output.now buffer.old }
    ensures handed { buffer.new ≡ handed output.now buffer.old }
{
    if buffer.len() < output.len() {
        return false;
    }
    buffer[..output.len()].copy_from_slice(output);
    true
}
