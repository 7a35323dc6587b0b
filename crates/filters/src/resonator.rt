// One resonator: a filter tuned to a note, through which values go one by one.
ghost use Rattle.std.specs.Prelude.{◌≡◌};
ghost use Rattle.filters.specs.Resonator.{windowed_of, stepped_of, at_rest, power_of};

use numbers::floats::is_finite;

// The two values that a resonator remembers.
#[derive(Clone, Copy)]
pub struct Delay {
    pub last: f32,
    pub before: f32,
}

// What the sheet has for a note: how its resonator is tuned, and how much it counts.
#[derive(Clone, Copy)]
pub struct GoertzelRow {
    pub coefficient: f32,
    pub weight: f32,
}

// A sample under its window value. One that is not finite counts as 0.
pub fn windowed(sample: f32, value: f32) -> f32
    ensures { result ≡ windowed_of sample value }
{
    if is_finite(sample) {
        sample * value
    } else {
        0.0
    }
}

// Before the first value.
pub fn at_rest() -> Delay
    ensures { result ≡ at_rest }
{
    Delay {
        last: 0.0,
        before: 0.0,
    }
}

// One value more.
pub fn step(delay: Delay, coefficient: f32, x: f32) -> Delay
    ensures { result ≡ stepped_of coefficient x delay }
{
    Delay {
        last: x + coefficient * delay.last - delay.before,
        before: delay.last,
    }
}

// The power that the resonator ends with.
pub fn power(delay: Delay, coefficient: f32) -> f32
    ensures { result ≡ power_of coefficient delay }
{
    delay.before * delay.before + delay.last * delay.last - coefficient * delay.last * delay.before
}
