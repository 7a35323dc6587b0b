// The alternate key: the other key with the most seconds, where they cover enough.
ghost use Rattle.std.specs.Prelude.{◌≡◌, ℕ, ◌<◌, ◌≤◌, length, Some};
ghost use Rattle.std.specs.Float.{binary64};
ghost use Rattle.std.specs.Float.Ieee.{add};
ghost use Rattle.laws.specs.Order.{total_order};
ghost use Rattle.laws.specs.Leader.{outdone};
ghost use Rattle.keys.specs.Numbers.{key_number};
ghost use Rattle.timeline.specs.inside.Estimates.{Numbered};
ghost use Rattle.timeline.specs.inside.Segments.{lent_stretches, stretches_in, Stretched};
ghost use Rattle.alternates.specs.Alternate.{held_seconds, lasting, total_of, named_unless_lacking, alternate_of};
ghost use Rattle.alternates.specs.inside.Noted.{noted_of, leader_in, standing_of};

use conversions::narrow;
use keys::Key;
use numbers::floats::{larger, total_before};
use timeline::segment::{Segment, segment_seconds, stretch_at};

// A key by its number, with the part of the track that it covers.
#[derive(Clone, Copy)]
pub struct Alternate {
    pub key: u8,
    pub coverage: f32,
}

// A key other than the reported one, with its seconds.
#[derive(Clone, Copy)]
struct Rival {
    key: u8,
    sum: f64,
}

// Each key's seconds, and the keys in the order in which they are first met, behind the reported one.
#[derive(Clone, Copy)]
struct Noted {
    sums: [f64; 24],
    order: [u8; 24],
    met: usize,
}

// A segment's length, held from +0 up.
fn held_seconds(segment: Segment) -> f64
    ensures { result ≡ held_seconds segment }
{
    larger(segment_seconds(segment), 0.0)
}

// Whether a segment is longer than 2^-52 s.
fn is_lasting(segment: Segment) -> bool
    ensures { result ≡ lasting segment }
{
    !(held_seconds(segment) <= f64::EPSILON)
}

// One segment's length more.
fn with_length(sum: f64, segment: Segment) -> f64
    ensures { result ≡ add binary64 sum (held_seconds segment) }
{
    let length = held_seconds(segment);
    sum + length
}

// All segments' lengths, summed in order from -0.
fn total_seconds(count: usize, starts: &[f64], ends: &[f64], keys: &[u8]) -> f64
    requires { Stretched (lent_stretches starts.now ends.now keys.now) count }
    ensures { result ≡ total_of (stretches_in (lent_stretches starts.now ends.now keys.now) count) }
{
    let mut sum = -0.0;
    for i in 0..count {
        sum = with_length(sum, stretch_at(i, starts, ends, keys));
    }
    sum
}

// Notes each lasting segment's seconds, and its key where that is first met; the reported key counts
// as met before all others.
fn note_segments(reported: u8, count: usize, starts: &[f64], ends: &[f64], keys: &[u8]) -> Noted
    requires { (reported < 24) × Stretched (lent_stretches starts.now ends.now keys.now) count }
    ensures { result ≡ noted_of reported (stretches_in (lent_stretches starts.now ends.now keys.now) count) }
{
    let mut sums = [0.0; 24];
    let mut order = [0; 24];
    let mut known = [false; 24];
    order[0] = reported;
    known[reported as usize] = true;
    let mut met = 1;
    for i in 0..count {
        let segment = stretch_at(i, starts, ends, keys);
        if is_lasting(segment) {
            let key = u8::from(segment.key);
            let at = key as usize;
            sums[at] += held_seconds(segment);
            if !known[at] {
                known[at] = true;
                order[met] = key;
                met += 1;
            }
        }
    }
    Noted { sums, order, met }
}

// The next key takes the lead unless the leading seconds are above its own.
fn take_lead(leader: Option<Rival>, next: Rival) -> Rival
    ensures { standing_of (Some result) ≡ outdone total_order (λ (k : ℕ). next.sum) (standing_of leader) next.key }
{
    match leader {
        Some(rival) if !total_before(rival.sum, next.sum) => rival,
        _ => next,
    }
}

// Of the keys behind the reported one, the last with the most seconds.
fn find_leader(noted: Noted) -> Option<Rival>
    requires { (0 < noted.met) × (noted.met ≤ 24) × (noted.met ≤ length noted.order) × Numbered noted.order noted.met }
    ensures { standing_of result ≡ leader_in noted }
{
    let mut leader = None;
    for j in 1..noted.met {
        let key = noted.order[j];
        let sum = noted.sums[key as usize];
        leader = Some(take_lead(leader, Rival { key, sum }));
    }
    leader
}

// Names the leading key unless its part of all seconds lacks.
fn judge(threshold: f32, total: f64, leader: Option<Rival>) -> Option<Alternate>
    ensures { result ≡ named_unless_lacking threshold total (standing_of leader) }
{
    let rival = leader?;
    let coverage = narrow(rival.sum / total);
    if coverage + f32::EPSILON < threshold {
        None
    } else {
        Some(Alternate {
            key: rival.key,
            coverage,
        })
    }
}

// The Rust's `significant_alternate_key`.
pub fn alternate_key(
    reported: Key,
    threshold: f32,
    count: usize,
    starts: &[f64],
    ends: &[f64],
    keys: &[u8],
) -> Option<Alternate>
    requires { Stretched (lent_stretches starts.now ends.now keys.now) count }
    ensures { result ≡ alternate_of (key_number reported) threshold (stretches_in (lent_stretches starts.now ends.now keys.now) count) }
{
    if (threshold <= 0.0) | (count == 0) {
        return None;
    }
    let total = total_seconds(count, starts, ends, keys);
    if total <= f64::EPSILON {
        return None;
    }
    let noted = note_segments(u8::from(reported), count, starts, ends, keys);
    judge(threshold, total, find_leader(noted))
}
