// Engine 0: all rows' resonators side by side over one frame, and the magnitudes that they end with.
ghost use Rattle.std.specs.Prelude.{◌≡◌, ◌+◌, ◌≤◌, length};
ghost use Rattle.laws.specs.Front.{front};
ghost use Rattle.magnitudes.specs.Magnitudes.{frame_value};
ghost use Rattle.magnitudes.specs.SideBySide.{delay_lists, stepped_rows, run_rows, last_magnitudes, side_by_side};

use crate::row::last_magnitude;
use filters::resonator::{Delay, step, windowed};

// One value more through every row's resonator.
fn step_rows(coefficients: &[f32], x: f32, last: &mut [f32], before: &mut [f32])
    requires { (length coefficients.now ≤ length last.old) × (length coefficients.now ≤ length before.old) }
    ensures { delay_lists last.new before.new ≡ stepped_rows coefficients.now x (delay_lists last.old before.old) }
{
    for k in 0..coefficients.len() {
        let delay = Delay {
            last: last[k],
            before: before[k],
        };
        let next = step(delay, coefficients[k], x);
        last[k] = next.last;
        before[k] = next.before;
    }
}

// The frame that starts at `start`, through every row's resonator.
fn run_rows(
    samples: &[f32],
    start: usize,
    window: &[f32],
    coefficients: &[f32],
    last: &mut [f32],
    before: &mut [f32],
)
    requires { (start + length window.now ≤ length samples.now) × (length coefficients.now ≤ length last.old) × (length coefficients.now ≤ length before.old) }
    ensures { delay_lists last.new before.new ≡ run_rows coefficients.now (frame_value window.now samples.now start) (length window.now) (delay_lists last.old before.old) }
{
    for i in 0..window.len() {
        let x = windowed(samples[start + i], window[i]);
        step_rows(coefficients, x, last, before);
    }
}

// The magnitudes of all rows, from what their resonators end with.
fn last_magnitudes(coefficients: &[f32], last: &[f32], before: &[f32], room: &mut [f32])
    requires { (length coefficients.now ≤ length last.now) × (length coefficients.now ≤ length before.now) × (length coefficients.now ≤ length room.old) }
    ensures { room.new ≡ front (last_magnitudes coefficients.now (delay_lists last.now before.now)) room.old }
{
    for k in 0..coefficients.len() {
        let delay = Delay {
            last: last[k],
            before: before[k],
        };
        room[k] = last_magnitude(coefficients[k], delay);
    }
}

// The magnitudes of all rows, from the front of `room`.
pub fn write_side_by_side(
    samples: &[f32],
    start: usize,
    window: &[f32],
    coefficients: &[f32],
    room: &mut [f32],
)
    requires { (start + length window.now ≤ length samples.now) × (length coefficients.now ≤ length room.old) × (length coefficients.now ≤ 256) }
    ensures { room.new ≡ side_by_side window.now coefficients.now samples.now start room.old }
{
    let mut last = [0.0; 256];
    let mut before = [0.0; 256];
    run_rows(samples, start, window, coefficients, &mut last, &mut before);
    last_magnitudes(coefficients, &last, &before, room);
}
