// Sums by pitch class over the rows of a sheet, of which row k is for the lowest note plus k.
ghost use Rattle.std.specs.Prelude.{◌≡◌, ◌<◌, ◌≤◌, length};
ghost use Rattle.filters.specs.Classes.{class_at, weights_by_class, divided_value, divided_by_class};

use std::array;

// The pitch class of a row.
pub fn class_at(lowest: u8, k: usize) -> usize
    requires { k < 256 }
    ensures { (result ≡ class_at lowest k) × (result < 12) }
{
    (lowest as usize + k) % 12
}

// The weights of each class's rows together.
pub fn sum_weights(lowest: u8, weights: &[f32]) -> [f32; 12]
    requires { length weights.now ≤ 256 }
    ensures { result ≡ weights_by_class lowest weights.now }
{
    let mut sums = [0.0; 12];
    for k in 0..weights.len() {
        sums[class_at(lowest, k)] += weights[k];
    }
    sums
}

// A value over the weights of its class, where those are above 2^-23.
fn divide_value(value: f32, weight: f32) -> f32
    ensures { result ≡ divided_value value weight }
{
    if weight > 0.00000011920929 {
        value / weight
    } else {
        value
    }
}

// The Rust's `normalize_pitch_class_weights`.
pub fn divide_by_weights(values: &[f32; 12], weights: &[f32; 12]) -> [f32; 12]
    ensures { result ≡ divided_by_class values.now weights.now }
{
    array::from_fn(|i| divide_value(values[i], weights[i]))
}
