// Engine 1: four rows at a time over one frame, and the odd rows at the end singly.
ghost use Rattle.std.specs.Prelude.{◌≡◌, ◌+◌, ◌*◌, ◌≤◌, length};
ghost use Rattle.filters.specs.Resonator.{resonated};
ghost use Rattle.filters.specs.Four.{same_for_four, four_resonated};
ghost use Rattle.magnitudes.specs.Magnitudes.{frame_value};
ghost use Rattle.magnitudes.specs.InFours.{coefficients_from, batch_powers, roots_of, put_batches, put_singly, in_fours};

use crate::row::{last_magnitude, last_power};
use filters::four::{Four, four_at_rest, put_four, same_for_four, step_four};
use filters::resonator::{Delay, at_rest, step, windowed};
use roots::square_root;

// The coefficients of four rows from k on.
fn coefficients_from(coefficients: &[f32], k: usize) -> Four<f32>
    requires { k + 4 ≤ length coefficients.now }
    ensures { result ≡ coefficients_from coefficients.now k }
{
    Four {
        a: coefficients[k],
        b: coefficients[k + 1],
        c: coefficients[k + 2],
        d: coefficients[k + 3],
    }
}

// The frame that starts at `start`, through four rows' resonators.
fn run_batch(samples: &[f32], start: usize, window: &[f32], coefficients: Four<f32>) -> Four<Delay>
    requires { start + length window.now ≤ length samples.now }
    ensures { result ≡ four_resonated coefficients (λ i. same_for_four (frame_value window.now samples.now start i)) (length window.now) }
{
    let mut delays = four_at_rest();
    for i in 0..window.len() {
        let x = windowed(samples[start + i], window[i]);
        delays = step_four(delays, coefficients, same_for_four(x));
    }
    delays
}

// The powers of four rows.
fn goertzel_power_batch_4(
    samples: &[f32],
    start: usize,
    window: &[f32],
    coefficients: Four<f32>,
) -> Four<f32>
    requires { start + length window.now ≤ length samples.now }
    ensures { result ≡ batch_powers window.now samples.now start coefficients }
{
    let delays = run_batch(samples, start, window, coefficients);
    coefficients.with(delays, last_power)
}

// The square roots of four powers.
fn roots_of_four(powers: Four<f32>) -> Four<f32>
    ensures { result ≡ roots_of powers }
{
    powers.map(square_root)
}

// The frame that starts at `start`, through one row's resonator.
fn run_row(samples: &[f32], start: usize, window: &[f32], coefficient: f32) -> Delay
    requires { start + length window.now ≤ length samples.now }
    ensures { result ≡ resonated coefficient (frame_value window.now samples.now start) (length window.now) }
{
    let mut delay = at_rest();
    for i in 0..window.len() {
        let x = windowed(samples[start + i], window[i]);
        delay = step(delay, coefficient, x);
    }
    delay
}

// So many batches of rows, from the front of `room`.
fn write_batches(
    samples: &[f32],
    start: usize,
    window: &[f32],
    coefficients: &[f32],
    batches: usize,
    room: &mut [f32],
)
    requires { (start + length window.now ≤ length samples.now) × (4 * batches ≤ length coefficients.now) × (length coefficients.now ≤ length room.old) }
    ensures { room.new ≡ put_batches window.now coefficients.now samples.now start batches room.old }
{
    for j in 0..batches {
        let k = 4 * j;
        let four = coefficients_from(coefficients, k);
        let powers = goertzel_power_batch_4(samples, start, window, four);
        put_four(roots_of_four(powers), k, room);
    }
}

// The rows from `from` on, one by one.
fn write_singly(
    samples: &[f32],
    start: usize,
    window: &[f32],
    coefficients: &[f32],
    from: usize,
    room: &mut [f32],
)
    requires { (start + length window.now ≤ length samples.now) × (from ≤ length coefficients.now) × (length coefficients.now ≤ length room.old) }
    ensures { room.new ≡ put_singly window.now coefficients.now samples.now start from room.old }
{
    for k in from..coefficients.len() {
        let delay = run_row(samples, start, window, coefficients[k]);
        room[k] = last_magnitude(coefficients[k], delay);
    }
}

// The magnitudes of all rows, from the front of `room`.
pub fn write_in_fours(
    samples: &[f32],
    start: usize,
    window: &[f32],
    coefficients: &[f32],
    room: &mut [f32],
)
    requires { (start + length window.now ≤ length samples.now) × (length coefficients.now ≤ length room.old) }
    ensures { room.new ≡ in_fours window.now coefficients.now samples.now start room.old }
{
    let batches = coefficients.len() / 4;
    let odd = 4 * batches;
    write_batches(samples, start, window, coefficients, batches, room);
    write_singly(samples, start, window, coefficients, odd, room);
}
