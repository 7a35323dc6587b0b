// The number leaves on f64.
ghost use Rattle.std.specs.Prelude.{◌≡◌};
ghost use Rattle.std.specs.Float.{binary32, binary64};
ghost use Rattle.std.specs.Float.Ieee.Scale.{finite};
ghost use Rattle.laws.specs.Convert.{converted};
ghost use Rattle.laws.specs.Order.{total_order, order_key};
ghost use Rattle.laws.specs.Pick.{maximum_number, minimum_number};

use conversions::narrow;
use numbers::floats::{Floating, is_finite, larger, smaller, total_before};

#[unsafe(no_mangle)]
pub extern "C" fn probe_narrow(x: f64) -> f32
    ensures { result ≡ converted binary32 x }
{
    narrow(x)
}

#[unsafe(no_mangle)]
pub extern "C" fn probe_is_finite_f64(x: f64) -> bool
    ensures { result ≡ finite x }
{
    is_finite(x)
}

#[unsafe(no_mangle)]
pub extern "C" fn probe_order_key_f64(x: f64) -> u64
    ensures { result ≡ order_key binary64 x }
{
    x.order_key()
}

#[unsafe(no_mangle)]
pub extern "C" fn probe_total_before_f64(a: f64, b: f64) -> bool
    ensures { result ≡ total_order a b }
{
    total_before(a, b)
}

#[unsafe(no_mangle)]
pub extern "C" fn probe_larger_f64(a: f64, b: f64) -> f64
    ensures { result ≡ maximum_number a b }
{
    larger(a, b)
}

#[unsafe(no_mangle)]
pub extern "C" fn probe_smaller_f64(a: f64, b: f64) -> f64
    ensures { result ≡ minimum_number a b }
{
    smaller(a, b)
}
