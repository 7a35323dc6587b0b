// f32: what it shares with f64, and its own.
ghost use Rattle.std.specs.Prelude.{◌≡◌, refl};
ghost use Rattle.std.specs.Float.{binary32};
ghost use Rattle.std.specs.Float.Ieee.{of_bits};
ghost use Rattle.laws.specs.Values.{magnitude_of};
ghost use Rattle.laws.specs.Pick.{clamped_to};
ghost use Rattle.numbers.specs.Compared.{less-is, at-most-is};

use crate::floats::Floating;

impl Floating for f32 {
    type Key = u32;

    ghost format = { binary32 };

    ghost value = { λ x. x };

    ghost key_number = { λ key. key };

    ghost equal = { λ _ _. refl };

    ghost less = { less-is };

    ghost keys_at_most = { at-most-is };

    // x - x is 0 for a finite x alone.
    fn is_finite(self) -> bool {
        self - self == 0.0
    }

    fn is_negative(self) -> bool {
        !self.is_nan() && self.is_sign_negative()
    }

    fn is_below(self, other: Self) -> bool {
        self < other
    }

    fn order_key(self) -> u32 {
        if self.is_nan() {
            return 0xffff_ffff;
        }
        let bits = self.to_bits();
        if bits < 0x8000_0000 {
            bits + 0x8000_0000
        } else {
            0xffff_ffff - bits
        }
    }
}

// IEEE 754 abs: x with the plus sign.
pub fn magnitude(x: f32) -> f32
    ensures { result ≡ magnitude_of x }
{
    if x.is_negative() { -x } else { x }
}

// The value of a pattern.
pub fn from_pattern(pattern: u32) -> f32
    ensures { result ≡ of_bits binary32 pattern }
{
    if pattern % 0x8000_0000 > 0x7f80_0000 {
        return 0.0 / 0.0;
    }
    f32::from_bits(pattern)
}

// Rust's `x.clamp(low, high)`.
pub fn clamp(x: f32, low: f32, high: f32) -> f32
    ensures { result ≡ clamped_to low high x }
{
    if x < low {
        return low;
    }
    if x > high {
        return high;
    }
    x
}
