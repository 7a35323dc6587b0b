// A stretch of time with one key, and such segments in lent rows.
ghost use Rattle.std.specs.Prelude.{◌≡◌, length, ◌<◌};
ghost use Rattle.timeline.specs.Segments.{emptied, seconds, short, joined, lent_segments, segment_room};
ghost use Rattle.timeline.specs.inside.Segments.{Joinable, lent_stretches, stretch_in};

use crate::stored::stored_key;
use keys::Key;
use numbers::counts::fewer;
use numbers::floats::{larger, smaller};

// The Rust's KeySegment: [start, end) in seconds, its key and how sure that is; and how many windows' estimates it rests on.
#[derive(Clone, Copy)]
pub struct Segment {
    pub start: f64,
    pub end: f64,
    pub key: Key,
    pub confidence: f32,
    pub windows: u32,
}

impl Segment {
    // What a row holds that joining has emptied.
    pub fn emptied() -> Segment
        ensures { result ≡ emptied }
    {
        Segment {
            start: 0.0,
            end: 0.0,
            key: stored_key(0),
            confidence: 0.0,
            windows: 0,
        }
    }

    // The length in seconds.
    pub fn seconds(self) -> f64
        ensures { result ≡ seconds self }
    {
        self.end - self.start
    }

    // Whether it is shorter than the minimum.
    pub fn is_short(self, least: f64) -> bool
        ensures { result ≡ short least self }
    {
        self.seconds() < least
    }

    // It and the one behind it as one, with its own key and confidence and the windows of both.
    pub fn joined(self, later: Segment) -> Segment
        requires { Joinable self later }
        ensures { result ≡ joined self later }
    {
        Segment {
            start: smaller(later.start, self.start),
            end: larger(later.end, self.end),
            key: self.key,
            confidence: self.confidence,
            windows: self.windows + later.windows,
        }
    }
}

// A segment's length in seconds.
pub fn segment_seconds(segment: Segment) -> f64
    ensures { result ≡ seconds segment }
{
    segment.seconds()
}

// The segment in row i as far as these columns tell it.
pub fn stretch_at(i: usize, starts: &[f64], ends: &[f64], keys: &[u8]) -> Segment
    requires { (i < length starts.now) × (i < length ends.now) × (i < length keys.now) }
    ensures { result ≡ stretch_in (lent_stretches starts.now ends.now keys.now) i }
{
    let start = starts[i];
    let end = ends[i];
    let key = stored_key(keys[i]);
    Segment {
        start,
        end,
        key,
        confidence: 0.0,
        windows: 0,
    }
}

// How many rows there are.
pub fn segment_room(
    starts: &[f64],
    ends: &[f64],
    keys: &[u8],
    confidences: &[f32],
    counts: &[u32],
) -> usize
    ensures { result ≡ segment_room (lent_segments starts.now ends.now keys.now confidences.now counts.now) }
{
    let told = fewer(confidences.len(), counts.len());
    fewer(starts.len(), fewer(ends.len(), fewer(keys.len(), told)))
}
