// Numbers, names and lines, each written from the front of lent bytes; the answer is how many bytes it has.
ghost use Rattle.std.specs.Prelude.{◌≡◌, ◌+◌, ◌≤◌, ◌<◌, length};
ghost use Rattle.listing.specs.Lines.{AtFront, digit_code, decimal_of, number_then, key_line, line_of};

use key_names::write_name;
use keys::numbers::key_from_index;

// The digit of a number below 10.
fn digit(n: u64) -> u8
    requires { n < 10 }
    ensures { result ≡ digit_code n }
{
    48 + n as u8
}

// A number in decimal digits.
#[tactic(auto, using(crate::proofs::Digit::digit_size, crate::proofs::Digit::digit_here))]
pub fn write_decimal(n: u64, bytes: &mut [u8]) -> usize
    requires { length (decimal_of n) ≤ length bytes.old }
    ensures { AtFront (decimal_of n) bytes.old bytes.new result }
{
    if n < 10 {
        bytes[0] = digit(n);
        return 1;
    }
    let at = write_decimal(n / 10, bytes);
    bytes[at] = digit(n % 10);
    at + 1
}

// A number, and a byte behind it.
pub fn write_number(n: u64, behind: u8, bytes: &mut [u8]) -> usize
    requires { length (number_then n behind) ≤ length bytes.old }
    ensures { AtFront (number_then n behind) bytes.old bytes.new result }
{
    let at = write_decimal(n, bytes);
    bytes[at] = behind;
    at + 1
}

// A line with the name of a key, by its number.
pub fn write_key_line(number: u64, bytes: &mut [u8]) -> usize
    requires { length (key_line number) ≤ length bytes.old }
    ensures { AtFront (key_line number) bytes.old bytes.new result }
{
    let key = key_from_index(number as usize);
    let at = write_name(key, bytes);
    bytes[at] = b'\n';
    at + 1
}

// A segment's line.
pub fn write_line(start: u64, end: u64, key: u64, bytes: &mut [u8]) -> usize
    requires { length (line_of start end key) ≤ length bytes.old }
    ensures { AtFront (line_of start end key) bytes.old bytes.new result }
{
    let first = write_number(start, b' ', bytes);
    let second = first + write_number(end, b' ', &mut bytes[first..]);
    second + write_key_line(key, &mut bytes[second..])
}

// Bytes as they are.
pub fn write_bytes(text: &[u8], bytes: &mut [u8]) -> usize
    requires { length text.now ≤ length bytes.old }
    ensures { AtFront text.now bytes.old bytes.new result }
{
    bytes[..text.len()].copy_from_slice(text);
    text.len()
}
