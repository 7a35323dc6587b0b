// Numbers of few bits read from lent bytes, most significant bit first.
ghost use Rattle.std.specs.Prelude.{◌≡◌, ◌+◌, ◌*◌, ◌/◌, ◌%◌, ◌^◌, ◌≤◌, ◌<◌, length};
ghost use Rattle.bits.specs.Bits.{bits_of_bytes, field_at, HasBits};

use crate::masks::{joined, low_bits};

// The number that at most eight bytes are.
fn joined_bytes(bytes: &[u8]) -> u64
    requires { length bytes.now ≤ 8 }
    ensures { HasBits (length bytes.now * 8) result (bits_of_bytes bytes.now) }
{
    let mut seen = 0;
    for byte in bytes {
        seen = joined(seen, 8, u64::from(*byte));
    }
    seen
}

// The number in the `width` bits from bit `at` on. Where eight bytes are there they are read as one number.
pub fn get_bits(bytes: &[u8], at: usize, width: usize) -> u64
    requires { (width ≤ 56) × (at + width ≤ length bytes.now * 8) }
    ensures { result ≡ field_at (bits_of_bytes bytes.now) at width }
{
    let first = at / 8;
    let wanted = at % 8 + width;
    if bytes.len() - first >= 8 && wanted > 0 {
        let eight = joined_bytes(&bytes[first..first + 8]);
        return low_bits(eight >> (64 - wanted), width);
    }
    let count = (wanted + 7) / 8;
    let seen = joined_bytes(&bytes[first..first + count]);
    low_bits(seen >> (count * 8 - wanted), width)
}

// The field of `width` bits that a number has before its last `behind` bits.
pub fn field(number: u64, behind: usize, width: usize) -> u64
    requires { (behind < 64) × (width < 64) }
    ensures { result ≡ number / 2 ^ behind % 2 ^ width }
{
    low_bits(number >> behind, width)
}
