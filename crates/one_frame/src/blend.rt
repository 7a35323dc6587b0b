// One chroma of two: Goertzel's, and constant-Q's where it has energy.
ghost use Rattle.std.specs.Prelude.{◌≡◌};
ghost use Rattle.one_frame.specs.Blend.{levelled, halves_of, blend_of};

use numbers::twelve::sum_of_twelve;
use std::array;
use whitening::levels::{normalize_chroma, whiten_chroma};

// A chroma whitened and normalised.
fn level(chroma: &[f32; 12]) -> [f32; 12]
    ensures { result ≡ levelled chroma.now }
{
    let whitened = whiten_chroma(chroma);
    normalize_chroma(&whitened)
}

// Half of each of two chromas.
fn add_halves(a: &[f32; 12], b: &[f32; 12]) -> [f32; 12]
    ensures { result ≡ halves_of a.now b.now }
{
    array::from_fn(|i| 0.5 * a[i] + 0.5 * b[i])
}

// Goertzel's chroma levelled, and with constant-Q's where that sums to more than 2^-23.
pub fn blend(goertzel: &[f32; 12], constant: &[f32; 12]) -> [f32; 12]
    ensures { result ≡ blend_of goertzel.now constant.now }
{
    let first = level(goertzel);
    if sum_of_twelve(constant) > 0.00000011920929 {
        let second = level(constant);
        let both = add_halves(&first, &second);
        normalize_chroma(&both)
    } else {
        first
    }
}
