// What one row's resonator ends with.
ghost use Rattle.std.specs.Prelude.{◌≡◌};
ghost use Rattle.magnitudes.specs.Magnitudes.{last_power, last_magnitude};

use filters::resonator::{Delay, power};
use numbers::floats::larger;
use roots::square_root;

// The power of a row's note. One below 0 and a NaN count as 0.
pub fn last_power(coefficient: f32, delay: Delay) -> f32
    ensures { result ≡ last_power coefficient delay }
{
    larger(power(delay, coefficient), 0.0)
}

// The magnitude of a row's note.
pub fn last_magnitude(coefficient: f32, delay: Delay) -> f32
    ensures { result ≡ last_magnitude coefficient delay }
{
    square_root(last_power(coefficient, delay))
}
