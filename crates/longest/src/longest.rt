// The reported key: of several segments the longest one's.
ghost use Rattle.std.specs.Prelude.{◌≡◌, ◌<◌};
ghost use Rattle.timeline.specs.inside.Segments.{lent_stretches, stretches_in, Stretched};
ghost use Rattle.longest.specs.Longest.{longer, longest_of, reported_of};

use keys::Key;
use numbers::floats::total_before;
use timeline::segment::{Segment, segment_seconds, stretch_at};

// The longer of two segments, the later one where they are as long.
fn longer_of(best: Segment, segment: Segment) -> Segment
    ensures { result ≡ longer best segment }
{
    if total_before(segment_seconds(best), segment_seconds(segment)) {
        segment
    } else {
        best
    }
}

// The longest segment, the last of equals: the Rust's `longest_segment_key`.
fn longest_segment(count: usize, starts: &[f64], ends: &[f64], keys: &[u8]) -> Segment
    requires { (0 < count) × Stretched (lent_stretches starts.now ends.now keys.now) count }
    ensures { result ≡ longest_of (stretches_in (lent_stretches starts.now ends.now keys.now) count) }
{
    let mut best = stretch_at(0, starts, ends, keys);
    for i in 0..count {
        best = longer_of(best, stretch_at(i, starts, ends, keys));
    }
    best
}

// Of several segments the longest one's key, else the classified one.
pub fn reported_key(classified: Key, count: usize, starts: &[f64], ends: &[f64], keys: &[u8]) -> Key
    requires { Stretched (lent_stretches starts.now ends.now keys.now) count }
    ensures { result ≡ reported_of classified (stretches_in (lent_stretches starts.now ends.now keys.now) count) }
{
    if count > 1 {
        longest_segment(count, starts, ends, keys).key
    } else {
        classified
    }
}
