// Numbers as a key card packs them: thousandths and milliseconds of a float's exact value, rounded down.
#![tactic(auto)]

ghost use Rattle.std.specs.Prelude.{◌≡◌, ◌^◌, ◌≤◌, ◌<◌};
ghost use Rattle.packed.specs.Packing.{whole_times, thousandths_of, milliseconds_of};

use bits::masks::{high_bits, low_bits};
use conversions::widen;

// How many whole 1 / n there are in x, rounded down, up to `limit`; none below 0.
fn whole_times(x: f64, n: u64, limit: u64) -> Option<u64>
    requires { (1 ≤ n) × (n ≤ 1000) × (limit < 2 ^ 32) }
    ensures { result ≡ whole_times x n limit }
{
    if x.is_nan() {
        return None;
    }
    if x < 0.0 {
        return None;
    }
    let bits = f64::to_bits(x);
    let field = low_bits(bits, 63) >> 52;
    let digits = low_bits(bits, 52);
    if field >= 1055 {
        return None;
    }
    if field == 0 {
        return Some(0);
    }
    let whole = high_bits((0x10_0000_0000_0000 + digits) * n, 1075 - field);
    if whole <= limit { Some(whole) } else { None }
}

// The thousandths of x, rounded down, from 0 to 1000.
pub fn thousandths(x: f32) -> Option<u64>
    ensures { result ≡ thousandths_of x }
{
    whole_times(widen(x), 1000, 1000)
}

// The milliseconds of x seconds, rounded down, from 0 to `limit`.
pub fn milliseconds(x: f64, limit: u64) -> Option<u64>
    requires { limit < 2 ^ 32 }
    ensures { result ≡ milliseconds_of x limit }
{
    whole_times(x, 1000, limit)
}
