// A key's score: the mean of its correlations with four profiles.
ghost use Rattle.std.specs.Prelude.{◌≡◌, ◌<◌};
ghost use Rattle.scores.specs.inside.Modes.{wheel_at, divisors_of, divisors_at, mode_sums};
ghost use Rattle.scores.specs.inside.Scored.{scored_of};

use crate::profiles::{ENERGIES, ENERGY_AT, mean_at, profile_at};
use correlations::correlation::{correlations, divisor_of};
use correlations::deviations::{deviations, energy, mean, wheel};
use numbers::twelve::add_twelve;
use std::array;

// The divisor for each energy of a profile, and whether one of them was held up.
#[derive(Clone, Copy)]
struct Divisors {
    values: [f32; 17],
    held_up: bool,
}

// The 24 scores by key number, and whether the chroma has no shape.
#[derive(Clone, Copy)]
pub struct Scored {
    pub scores: [f32; 24],
    pub shapeless: bool,
}

// The wheel of the profile in a row of the table.
fn wheel_at(row: usize) -> [f32; 23]
    requires { row < 8 }
    ensures { result ≡ wheel_at row }
{
    let profile = profile_at(row);
    wheel(&profile, mean_at(row))
}

// The divisors from the chroma's energy.
fn divisors_for(energy: f32) -> Divisors
    ensures { result ≡ divisors_of energy }
{
    let energies = ENERGIES;
    let mut values = [0.0; 17];
    let mut held_up = false;
    for k in 0..17 {
        let next = divisor_of(energy, energies[k]);
        values[k] = next.value;
        held_up |= next.held_up;
    }
    Divisors { values, held_up }
}

// Those of the profile in a row of the table, by root.
fn divisors_at(divisors: &[f32; 17], row: usize) -> [f32; 12]
    requires { row < 8 }
    ensures { result ≡ divisors_at divisors.now row }
{
    let places = ENERGY_AT[row];
    let mut at_roots = [0.0; 12];
    for root in 0..12 {
        at_roots[root] = divisors[places[root] as usize];
    }
    at_roots
}

// The correlations with the four profiles of a mode together, by root; 0 is major and 1 is minor.
fn sum_mode(away: &[f32; 12], divisors: &[f32; 17], mode: usize) -> [f32; 12]
    requires { mode < 2 }
    ensures { result ≡ mode_sums away.now divisors.now mode }
{
    let mut sums = [0.0; 12];
    for p in 0..4 {
        let row = 2 * p + mode;
        let wheel = wheel_at(row);
        let at_roots = divisors_at(divisors, row);
        let more = correlations(away, &wheel, &at_roots);
        sums = add_twelve(&sums, &more);
    }
    sums
}

// The 24 scores by key number: twelve major, then twelve minor.
pub fn score_keys(chroma: &[f32; 12]) -> Scored
    ensures { result ≡ scored_of chroma.now }
{
    let away = deviations(chroma, mean(chroma));
    let divisors = divisors_for(energy(&away));
    let values = divisors.values;
    let sums = [sum_mode(&away, &values, 0), sum_mode(&away, &values, 1)];
    Scored {
        scores: array::from_fn(|k| sums[k / 12][k % 12] / 4.0),
        shapeless: divisors.held_up,
    }
}
