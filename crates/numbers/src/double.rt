// f64: what it shares with f32.
ghost use Rattle.std.specs.Prelude.{refl};
ghost use Rattle.std.specs.Float.{binary64};
ghost use Rattle.numbers.specs.Compared.{less-is, at-most-is};

use crate::floats::Floating;

impl Floating for f64 {
    type Key = u64;

    ghost format = { binary64 };

    ghost value = { λ x. x };

    ghost key_number = { λ key. key };

    ghost equal = { λ _ _. refl };

    ghost less = { less-is };

    ghost keys_at_most = { at-most-is };

    // x - x is 0 for a finite x alone.
    fn is_finite(self) -> bool {
        self - self == 0.0
    }

    fn is_negative(self) -> bool {
        !self.is_nan() && self.is_sign_negative()
    }

    fn is_below(self, other: Self) -> bool {
        self < other
    }

    fn order_key(self) -> u64 {
        if self.is_nan() {
            return 0xffff_ffff_ffff_ffff;
        }
        let bits = self.to_bits();
        if bits < 0x8000_0000_0000_0000 {
            bits + 0x8000_0000_0000_0000
        } else {
            0xffff_ffff_ffff_ffff - bits
        }
    }
}
