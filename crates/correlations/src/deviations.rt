// Deviations of twelve values from their mean, what all correlations with them share. A profile's mean is
// a constant, so the mean is told.
ghost use Rattle.std.specs.Prelude.{◌≡◌};
ghost use Rattle.correlations.specs.Correlation.{mean_of};
ghost use Rattle.correlations.specs.inside.Deviations.{deviations_of, deviation_energy, wheel_of};

use numbers::twelve::sum_of_twelve;
use std::array;

// The mean.
pub fn mean(values: &[f32; 12]) -> f32
    ensures { result ≡ mean_of values.now }
{
    sum_of_twelve(values) / 12.0
}

// The deviations from the mean.
pub fn deviations(values: &[f32; 12], mean: f32) -> [f32; 12]
    ensures { result ≡ deviations_of values.now mean }
{
    array::from_fn(|i| values[i] - mean)
}

// The sum of the deviations' squares.
pub fn energy(away: &[f32; 12]) -> f32
    ensures { result ≡ deviation_energy away.now }
{
    let mut sum = 0.0;
    for deviation in away {
        sum += *deviation * *deviation;
    }
    sum
}

// The deviations from the last value down to the first, and down again: each rotation in one piece.
pub fn wheel(values: &[f32; 12], mean: f32) -> [f32; 23]
    ensures { result ≡ wheel_of values.now mean }
{
    let away = deviations(values, mean);
    array::from_fn(|j| away[(23 - j) % 12])
}
