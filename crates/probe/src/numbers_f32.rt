// The number leaves on f32.
ghost use Rattle.std.specs.Prelude.{◌≡◌};
ghost use Rattle.std.specs.Float.{binary32};
ghost use Rattle.std.specs.Float.Ieee.Scale.{finite};
ghost use Rattle.laws.specs.Order.{total_order, order_key};
ghost use Rattle.laws.specs.Pick.{maximum_number, minimum_number};
ghost use Rattle.floors.specs.Floor.{floored};
ghost use Rattle.roots.specs.Root.{root_of};

use conversions::widen;
use floors::floor;
use numbers::floats::{Floating, is_finite, larger, smaller, total_before};
use roots::square_root;

#[unsafe(no_mangle)]
pub extern "C" fn probe_square_root(x: f32) -> f32
    ensures { result ≡ root_of x }
{
    square_root(x)
}

#[unsafe(no_mangle)]
pub extern "C" fn probe_floor(x: f32) -> f32
    ensures { result ≡ floored x }
{
    floor(x)
}

#[unsafe(no_mangle)]
pub extern "C" fn probe_widen(x: f32) -> f64
    ensures { result ≡ x }
{
    widen(x)
}

#[unsafe(no_mangle)]
pub extern "C" fn probe_is_finite_f32(x: f32) -> bool
    ensures { result ≡ finite x }
{
    is_finite(x)
}

#[unsafe(no_mangle)]
pub extern "C" fn probe_order_key_f32(x: f32) -> u32
    ensures { result ≡ order_key binary32 x }
{
    x.order_key()
}

#[unsafe(no_mangle)]
pub extern "C" fn probe_total_before_f32(a: f32, b: f32) -> bool
    ensures { result ≡ total_order a b }
{
    total_before(a, b)
}

#[unsafe(no_mangle)]
pub extern "C" fn probe_larger_f32(a: f32, b: f32) -> f32
    ensures { result ≡ maximum_number a b }
{
    larger(a, b)
}

#[unsafe(no_mangle)]
pub extern "C" fn probe_smaller_f32(a: f32, b: f32) -> f32
    ensures { result ≡ minimum_number a b }
{
    smaller(a, b)
}
