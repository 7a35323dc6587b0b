// Bits of a number, by shifts and masks.
ghost use Rattle.std.specs.Prelude.{◌≡◌, ◌+◌, ◌*◌, ◌/◌, ◌%◌, ◌^◌, ◌<◌};

// The low `width` bits of a number.
pub fn low_bits(number: u64, width: usize) -> u64
    requires { width < 64 }
    ensures { result ≡ number % 2 ^ width }
{
    number & ((1 << width) - 1)
}

// A number without its low `width` bits.
pub fn high_bits(number: u64, width: u64) -> u64
    ensures { result ≡ number / 2 ^ width }
{
    if width < 64 { number >> width } else { 0 }
}

// `high` with the `width` bits of `low` behind it.
pub fn joined(high: u64, width: usize, low: u64) -> u64
    requires { (width < 64) × (high * 2 ^ width < 2 ^ 64) × (low < 2 ^ width) }
    ensures { result ≡ high * 2 ^ width + low }
{
    (high << width) | low
}
