// The powers of all rows around a centre: four rows side by side, and singly what is left.
ghost use Rattle.std.specs.Prelude.{◌≡◌, ◌+◌, ◌<◌, ◌≤◌, length, slice_set};
ghost use Rattle.laws.specs.Front.{front};
ghost use Rattle.filters.specs.Four.{put_four};
ghost use Rattle.sheets.specs.Sheet.{joined_length};
ghost use Rattle.constant_q.specs.inside.Lanes.{four_powers};
ghost use Rattle.constant_q.specs.inside.Powers.{lane_of, power_at, powers_of, Readable, placed_at, lanes_from, four_from};

use crate::lanes::{Lane, four_powers, lane_power};
use crate::span::span_around;
use filters::four::{Four, put_four};

// A row, and where the window behind its own begins among the joined ones.
#[derive(Clone, Copy)]
pub struct Placed {
    pub lane: Lane,
    pub next: usize,
}

// Four rows, and where the window behind the last one's begins.
#[derive(Clone, Copy)]
pub struct PlacedLanes {
    pub lanes: Four<Lane>,
    pub next: usize,
}

// The row with a window of this size around a centre, which begins at `first` of the joined ones.
fn lane_around(samples: usize, centre: usize, size: u32, coefficient: f32, first: usize) -> Lane
    requires { centre ≤ samples }
    ensures { result ≡ lane_of size centre samples coefficient first }
{
    let span = span_around(size as usize, centre, samples);
    Lane {
        start: span.start,
        first,
        count: span.count,
        coefficient,
    }
}

// Row k around the centre, whose window begins at `first`, and where the next one's begins.
pub fn place(
    samples: usize,
    centre: usize,
    lengths: &[u32],
    coefficients: &[f32],
    end: usize,
    k: usize,
    first: usize,
) -> Placed
    requires { Readable samples centre lengths.now coefficients.now end × (k < length lengths.now) × (first ≡ joined_length lengths.now k) }
    ensures { result ≡ placed_at samples centre lengths.now coefficients.now k }
{
    let size = lengths[k];
    let next = first + size as usize;
    let lane = lane_around(samples, centre, size, coefficients[k], first);
    Placed { lane, next }
}

// Four rows from k on.
fn place_four(
    samples: usize,
    centre: usize,
    lengths: &[u32],
    coefficients: &[f32],
    end: usize,
    k: usize,
    first: usize,
) -> PlacedLanes
    requires { Readable samples centre lengths.now coefficients.now end × (k + 4 ≤ length lengths.now) × (first ≡ joined_length lengths.now k) }
    ensures { result ≡ four_from samples centre lengths.now coefficients.now k }
{
    let p = place(samples, centre, lengths, coefficients, end, k, first);
    let q = place(samples, centre, lengths, coefficients, end, k + 1, p.next);
    let r = place(samples, centre, lengths, coefficients, end, k + 2, q.next);
    let s = place(samples, centre, lengths, coefficients, end, k + 3, r.next);
    let lanes = Four {
        a: p.lane,
        b: q.lane,
        c: r.lane,
        d: s.lane,
    };
    PlacedLanes {
        lanes,
        next: s.next,
    }
}

// The power of row k goes into its place. Returns where the next row's window begins.
fn write_one(
    samples: &[f32],
    centre: usize,
    lengths: &[u32],
    coefficients: &[f32],
    windows: &[f32],
    k: usize,
    first: usize,
    room: &mut [f32],
) -> usize
    requires { Readable (length samples.now) centre lengths.now coefficients.now (length windows.now) × (length lengths.now ≤ length room.old) × (k < length lengths.now) × (first ≡ joined_length lengths.now k) }
    ensures { (room.new ≡ slice_set room.old k (power_at samples.now centre lengths.now coefficients.now windows.now k)) × (result ≡ joined_length lengths.now (k + 1)) }
{
    let end = windows.len();
    let placed = place(samples.len(), centre, lengths, coefficients, end, k, first);
    room[k] = lane_power(samples, windows, placed.lane);
    placed.next
}

// The powers of four rows from k on go into their places. Returns where the next row's window begins.
fn write_four(
    samples: &[f32],
    centre: usize,
    lengths: &[u32],
    coefficients: &[f32],
    windows: &[f32],
    k: usize,
    first: usize,
    room: &mut [f32],
) -> usize
    requires { Readable (length samples.now) centre lengths.now coefficients.now (length windows.now) × (length lengths.now ≤ length room.old) × (k + 4 ≤ length lengths.now) × (first ≡ joined_length lengths.now k) }
    ensures { (room.new ≡ put_four (four_powers samples.now windows.now (lanes_from (length samples.now) centre lengths.now coefficients.now k)) k room.old) × (result ≡ joined_length lengths.now (k + 4)) }
{
    let end = windows.len();
    let four = place_four(samples.len(), centre, lengths, coefficients, end, k, first);
    let powers = four_powers(samples, windows, four.lanes);
    put_four(powers, k, room);
    four.next
}

// The powers of all rows, from the front of `room`.
pub fn write_powers(
    samples: &[f32],
    centre: usize,
    lengths: &[u32],
    coefficients: &[f32],
    windows: &[f32],
    room: &mut [f32],
)
    requires { Readable (length samples.now) centre lengths.now coefficients.now (length windows.now) × (length lengths.now ≤ length room.old) }
    ensures { room.new ≡ front (powers_of samples.now centre lengths.now coefficients.now windows.now) room.old }
{
    let rows = lengths.len();
    let mut first = 0;
    let mut k = 0;
    while k < rows {
        if rows - k < 4 {
            first = write_one(
                samples,
                centre,
                lengths,
                coefficients,
                windows,
                k,
                first,
                room,
            );
            k += 1;
        } else {
            first = write_four(
                samples,
                centre,
                lengths,
                coefficients,
                windows,
                k,
                first,
                room,
            );
            k += 4;
        }
    }
}
