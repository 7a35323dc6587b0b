// How well a chroma follows a key profile from each root up.
ghost use Rattle.std.specs.Prelude.{◌≡◌};
ghost use Rattle.correlations.specs.inside.Divisors.{divisor_of};
ghost use Rattle.correlations.specs.inside.Lanes.{products_of, turned_of};

use crate::lanes::sum_lanes;
use numbers::floats::larger;
use roots::square_root;
use std::array;

// What a correlation's products are divided by, and whether 2^-23 took the place of a smaller number.
#[derive(Clone, Copy)]
pub struct Divisor {
    pub value: f32,
    pub held_up: bool,
}

// What the Rust's `correlation` divides by, from the energies of chroma and profile: held up by 2^-23.
pub fn divisor_of(chroma: f32, profile: f32) -> Divisor
    ensures { result ≡ divisor_of chroma profile }
{
    let root = square_root(chroma * profile);
    Divisor {
        value: larger(root, 0.00000011920929),
        held_up: !(0.00000011920929 <= root),
    }
}

// The sums of products at all twelve roots, from the chroma's deviations and a profile's wheel.
fn products(away: &[f32; 12], wheel: &[f32; 23]) -> [f32; 12]
    ensures { result ≡ products_of away.now wheel.now }
{
    let low = sum_lanes(away, wheel, 0);
    let middle = sum_lanes(away, wheel, 4);
    let high = sum_lanes(away, wheel, 8);
    [
        low.first,
        low.second,
        low.third,
        low.fourth,
        middle.first,
        middle.second,
        middle.third,
        middle.fourth,
        high.first,
        high.second,
        high.third,
        high.fourth,
    ]
}

// The correlations at all twelve roots, with the divisor of each.
pub fn correlations(away: &[f32; 12], wheel: &[f32; 23], divisors: &[f32; 12]) -> [f32; 12]
    ensures { result ≡ turned_of away.now wheel.now divisors.now }
{
    let sums = products(away, wheel);
    array::from_fn(|root| sums[root] / divisors[root])
}
