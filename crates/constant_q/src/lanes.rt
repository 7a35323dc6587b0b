// Rows around a centre, each with the samples and the window values that go through its resonator:
// one by itself, or four side by side.
ghost use Rattle.std.specs.Prelude.{◌≡◌, ◌<◌, ◌≤◌, length};
ghost use Rattle.filters.specs.Resonator.{power_of};
ghost use Rattle.constant_q.specs.ConstantQ.{per_count};
ghost use Rattle.constant_q.specs.inside.Lanes.{Lies, FourLie, lane_value, lane_delay, lane_power, four_values, four_coefficients, stepped_lanes, fewest_of, four_delays, four_powers};

use filters::four::{Four, four_at_rest, step_four};
use filters::resonator::{Delay, at_rest, power, step};
use numbers::floats::larger;

// Where a row's samples and window values begin, how many there are, and how its resonator is tuned.
#[derive(Clone, Copy)]
pub struct Lane {
    pub start: usize,
    pub first: usize,
    pub count: usize,
    pub coefficient: f32,
}

// Value i of a lane.
fn lane_value(samples: &[f32], windows: &[f32], lane: Lane, i: usize) -> f32
    requires { Lies (length samples.now) (length windows.now) lane × (i < lane.count) }
    ensures { result ≡ lane_value samples.now windows.now lane i }
{
    samples[lane.start + i] * windows[lane.first + i]
}

// The rest of a lane, from a value on.
fn run_lane(samples: &[f32], windows: &[f32], lane: Lane, from: usize, delay: Delay) -> Delay
    requires { Lies (length samples.now) (length windows.now) lane × (from ≤ lane.count) × (delay ≡ lane_delay samples.now windows.now lane from) }
    ensures { result ≡ lane_delay samples.now windows.now lane lane.count }
{
    let mut state = delay;
    for i in from..lane.count {
        let x = lane_value(samples, windows, lane, i);
        state = step(state, lane.coefficient, x);
    }
    state
}

// What a resonator's delayed values make of its lane: power over the square of the count.
pub fn power_per_count(lane: Lane, delay: Delay) -> f32
    requires { lane.count < 0x1_0000_0000 }
    ensures { result ≡ per_count lane.count (power_of lane.coefficient delay) }
{
    let n = std::num::nearest_u32_to_f32(lane.count as u32);
    larger(power(delay, lane.coefficient) / (n * n), 0.0)
}

// The power of a lane of which the values before `from` have gone through.
fn finish_lane(samples: &[f32], windows: &[f32], lane: Lane, from: usize, delay: Delay) -> f32
    requires { Lies (length samples.now) (length windows.now) lane × (from ≤ lane.count) × (delay ≡ lane_delay samples.now windows.now lane from) }
    ensures { result ≡ lane_power samples.now windows.now lane }
{
    let last = run_lane(samples, windows, lane, from, delay);
    power_per_count(lane, last)
}

// The power of a lane.
pub fn lane_power(samples: &[f32], windows: &[f32], lane: Lane) -> f32
    requires { Lies (length samples.now) (length windows.now) lane }
    ensures { result ≡ lane_power samples.now windows.now lane }
{
    finish_lane(samples, windows, lane, 0, at_rest())
}

// Value i of each of four lanes.
fn four_values(samples: &[f32], windows: &[f32], lanes: Four<Lane>, i: usize) -> Four<f32>
    requires { FourLie (length samples.now) (length windows.now) lanes × (i < fewest_of lanes) }
    ensures { result ≡ four_values samples.now windows.now lanes i }
{
    lanes.map(|lane| lane_value(samples, windows, lane, i))
}

// How the resonators of four lanes are tuned.
fn four_coefficients(lanes: Four<Lane>) -> Four<f32>
    ensures { result ≡ four_coefficients lanes }
{
    lanes.map(|lane| lane.coefficient)
}

// Four resonators after value i of each lane.
pub fn step_lanes(
    samples: &[f32],
    windows: &[f32],
    lanes: Four<Lane>,
    i: usize,
    delays: Four<Delay>,
) -> Four<Delay>
    requires { FourLie (length samples.now) (length windows.now) lanes × (i < fewest_of lanes) }
    ensures { result ≡ stepped_lanes samples.now windows.now lanes i delays }
{
    let x = four_values(samples, windows, lanes, i);
    step_four(delays, four_coefficients(lanes), x)
}

// The first n values of four lanes, side by side.
fn run_four(samples: &[f32], windows: &[f32], lanes: Four<Lane>, n: usize) -> Four<Delay>
    requires { FourLie (length samples.now) (length windows.now) lanes × (n ≤ fewest_of lanes) }
    ensures { result ≡ four_delays samples.now windows.now lanes n }
{
    let mut delays = four_at_rest();
    for i in 0..n {
        delays = step_lanes(samples, windows, lanes, i, delays);
    }
    delays
}

// The count that all four lanes reach.
fn fewest(lanes: Four<Lane>) -> usize
    ensures { result ≡ fewest_of lanes }
{
    let early = lanes.a.count.min(lanes.b.count);
    early.min(lanes.c.count.min(lanes.d.count))
}

// The powers of four lanes: side by side as far as all reach, then each by itself.
pub fn four_powers(samples: &[f32], windows: &[f32], lanes: Four<Lane>) -> Four<f32>
    requires { FourLie (length samples.now) (length windows.now) lanes }
    ensures { result ≡ four_powers samples.now windows.now lanes }
{
    let n = fewest(lanes);
    let delays = run_four(samples, windows, lanes, n);
    lanes.with(
        delays,
        |lane, delay| finish_lane(samples, windows, lane, n, delay),
    )
}
