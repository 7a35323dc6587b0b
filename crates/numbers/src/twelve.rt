// Twelve floats, one for each pitch class.
ghost use Rattle.std.specs.Prelude.{◌≡◌, length};
ghost use Rattle.numbers.specs.Sum.{sum_of, added_each};

use std::array;

// The Rust's `values.iter().sum()`.
pub fn sum_of_twelve(values: &[f32; 12]) -> f32
    ensures { result ≡ sum_of 12 values.now }
{
    let mut sum = -0.0;
    for value in values {
        sum += *value;
    }
    sum
}

// The values of a slice of twelve.
pub fn twelve_values(slice: &[f32]) -> [f32; 12]
    requires { length slice.now ≡ 12 }
    ensures { result ≡ slice.now }
{
    let mut values = [0.0; 12];
    values.copy_from_slice(slice);
    values
}

// Twelve sums, each with one value more.
pub fn add_twelve(sums: &[f32; 12], more: &[f32; 12]) -> [f32; 12]
    ensures { result ≡ added_each sums.now more.now }
{
    array::from_fn(|i| sums[i] + more[i])
}
