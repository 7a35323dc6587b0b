// Shifting a chroma by a part of a bin.
ghost use Rattle.std.specs.Prelude.{◌≡◌};
ghost use Rattle.chroma.specs.Shift.{class_of, blended, read_at, shifted_of, retuned_of};

use floors::floor;
use numbers::single::magnitude;
use std::{array, num};

// The pitch class of a float: the Rust's `(x as i32).rem_euclid(12)`.
fn class_of(x: f32) -> usize
    ensures { result ≡ class_of x }
{
    num::saturating_f32_to_i32(x).rem_euclid(12) as usize
}

// Between two bins, by how far the place is past the first.
fn blend(lower: f32, upper: f32, fraction: f32) -> f32
    ensures { result ≡ blended lower upper fraction }
{
    lower * (1.0 - fraction) + upper * fraction
}

// What stands at a place between the bins.
fn read_at(chroma: &[f32; 12], place: f32) -> f32
    ensures { result ≡ read_at chroma.now place }
{
    let whole = floor(place);
    let lower = class_of(whole);
    let upper = (lower + 1) % 12;
    blend(chroma[lower], chroma[upper], place - whole)
}

// The Rust's `shift_chroma`: bin b reads at b minus the offset.
pub fn shift_chroma(chroma: &[f32; 12], offset: f32) -> [f32; 12]
    ensures { result ≡ shifted_of chroma.now offset }
{
    array::from_fn(|bin| read_at(chroma, bin as f32 - offset))
}

// The chroma shifted by an offset beyond 0.01 either way, and as it is for any other.
pub fn retune_chroma(chroma: &[f32; 12], offset: f32) -> [f32; 12]
    ensures { result ≡ retuned_of chroma.now offset }
{
    if magnitude(offset) > 0.01 {
        shift_chroma(chroma, offset)
    } else {
        *chroma
    }
}
