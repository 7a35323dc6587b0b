// The whole number at or below a float.
#![tactic(auto)]

ghost use Rattle.std.specs.Prelude.{◌≡◌};
ghost use Rattle.floors.specs.Floor.{floored};

use numbers::floats::Floating;
use numbers::single::magnitude;

// IEEE 754 roundToIntegralTowardNegative. From 2^23 on every f32 is whole.
pub fn floor(x: f32) -> f32
    ensures { result ≡ floored x }
{
    if x.is_nan() {
        return x;
    }
    let size = magnitude(x);
    if size >= 8388608.0 {
        return x;
    }
    let whole = std::num::truncating_f32_to_u64(size);
    let cut = whole as f32;
    if cut == size {
        return x;
    }
    if x.is_negative() {
        -((whole + 1) as f32)
    } else {
        cut
    }
}
