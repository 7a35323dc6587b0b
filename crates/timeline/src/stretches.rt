// The columns of segments that the reported key and the alternate are read from.
ghost use Rattle.std.specs.Prelude.{◌≡◌, ◌<◌, length};
ghost use Rattle.timeline.specs.inside.Segments.{stretch_in};
ghost use Rattle.timeline.specs.inside.Lent.{stretches_lent};

use crate::segment::Segment;
use crate::stored::stored_key;

// From when to when in seconds, and the keys by number.
#[derive(Clone, Copy)]
pub struct LentStretches<'a> {
    pub starts: &'a [f64],
    pub ends: &'a [f64],
    pub keys: &'a [u8],
}

impl LentStretches<'_> {
    // The segment in row i as far as these columns tell it.
    pub fn at(self, i: usize) -> Segment
        requires { (i < length self.starts.now) × (i < length self.ends.now) × (i < length self.keys.now) }
        ensures { result ≡ stretch_in (stretches_lent self.entry) i }
    {
        Segment {
            start: self.starts[i],
            end: self.ends[i],
            key: stored_key(self.keys[i]),
            confidence: 0.0,
            windows: 0,
        }
    }
}
