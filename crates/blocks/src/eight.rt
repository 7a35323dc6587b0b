// One row at eight frame positions, a hop apart, through eight resonators side by side.
ghost use Rattle.std.specs.Prelude.{◌≡◌, ◌+◌, ◌*◌, ◌^◌, ◌<◌, ◌≤◌, length};
ghost use Rattle.constant_q.specs.inside.Lanes.{FourLie, fewest_of};
ghost use Rattle.blocks.specs.inside.Eight.{later_by, four_apart, EightLie, eight_delays, powers_left, eight_powers};

use constant_q::lanes::{Lane, power_per_count, step_lanes};
use filters::four::{Four, four_at_rest};
use filters::resonator::Delay;

// The delayed values of eight resonators: of the four earlier positions and of the four later ones.
#[derive(Clone, Copy)]
pub struct Eight {
    pub early: Four<Delay>,
    pub late: Four<Delay>,
}

// The same row some samples later.
fn later(lane: Lane, by: usize) -> Lane
    requires { lane.start + by < 2 ^ 64 }
    ensures { result ≡ later_by by lane }
{
    Lane {
        start: lane.start + by,
        ..lane
    }
}

// A row at four positions, a hop apart.
fn four_apart(lane: Lane, hop: usize) -> Four<Lane>
    requires { lane.start + 3 * hop < 2 ^ 64 }
    ensures { result ≡ four_apart hop lane }
{
    Four {
        a: lane,
        b: later(lane, hop),
        c: later(lane, 2 * hop),
        d: later(lane, 3 * hop),
    }
}

// The first n values of twice four lanes, all side by side.
fn run_eight(
    samples: &[f32],
    windows: &[f32],
    early: Four<Lane>,
    late: Four<Lane>,
    n: usize,
) -> Eight
    requires { FourLie (length samples.now) (length windows.now) early × FourLie (length samples.now) (length windows.now) late × (n ≤ fewest_of early) × (n ≤ fewest_of late) }
    ensures { result ≡ eight_delays samples.now windows.now early late n }
{
    let mut state = Eight {
        early: four_at_rest(),
        late: four_at_rest(),
    };
    for i in 0..n {
        state = Eight {
            early: step_lanes(samples, windows, early, i, state.early),
            late: step_lanes(samples, windows, late, i, state.late),
        };
    }
    state
}

// The powers that four resonators end with.
fn powers_left(lanes: Four<Lane>, delays: Four<Delay>) -> Four<f32>
    requires { (lanes.a.count < 0x1_0000_0000) × (lanes.b.count < 0x1_0000_0000) × (lanes.c.count < 0x1_0000_0000) × (lanes.d.count < 0x1_0000_0000) }
    ensures { result ≡ powers_left lanes delays }
{
    lanes.with(delays, power_per_count)
}

// The powers of a row at eight positions, a hop apart.
pub fn eight_powers(samples: &[f32], windows: &[f32], lane: Lane, hop: usize) -> [f32; 8]
    requires { EightLie (length samples.now) (length windows.now) hop lane }
    ensures { result ≡ eight_powers samples.now windows.now hop lane }
{
    let early = four_apart(lane, hop);
    let late = four_apart(later(lane, 4 * hop), hop);
    let state = run_eight(samples, windows, early, late, lane.count);
    let first = powers_left(early, state.early);
    let second = powers_left(late, state.late);
    [
        first.a, first.b, first.c, first.d, second.a, second.b, second.c, second.d,
    ]
}
