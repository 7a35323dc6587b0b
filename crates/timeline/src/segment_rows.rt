// Segments in lent rows: five slices side by side.
ghost use Rattle.std.specs.Prelude.{◌≡◌, ◌<◌, length};
ghost use Rattle.timeline.specs.Segments.{segment_in, segment_room};
ghost use Rattle.timeline.specs.inside.Segments.{put_segment, seconds_in, short_in, stretches_of};
ghost use Rattle.timeline.specs.inside.Lent.{segments_lent, stretches_lent, SameSegments};

use crate::segment::Segment;
use crate::stored::stored_key;
use crate::stretches::LentStretches;

// Rows of segments: from when to when in seconds, the keys by number, how sure they are, and how many windows they rest on.
#[derive(Drop)]
pub struct LentSegments<'a> {
    pub starts: &'a mut [f64],
    pub ends: &'a mut [f64],
    pub keys: &'a mut [u8],
    pub confidences: &'a mut [f32],
    pub counts: &'a mut [u32],
}

impl LentSegments<'_> {
    // A segment goes into place n.
    pub fn put(&mut self, n: usize, segment: Segment)
        requires { (n < length self.old.starts.now) × (n < length self.old.ends.now) × (n < length self.old.keys.now) × (n < length self.old.confidences.now) × (n < length self.old.counts.now) }
        ensures same_slices { SameSegments self.old self.new }
        ensures rows { segments_lent self.new ≡ put_segment segment n (segments_lent self.old) }
    {
        self.starts[n] = segment.start;
        self.ends[n] = segment.end;
        self.keys[n] = u8::from(segment.key);
        self.confidences[n] = segment.confidence;
        self.counts[n] = segment.windows;
    }

    // The segment in row i.
    pub fn at(&self, i: usize) -> Segment
        requires { (i < length self.now.starts.now) × (i < length self.now.ends.now) × (i < length self.now.keys.now) × (i < length self.now.confidences.now) × (i < length self.now.counts.now) }
        ensures { result ≡ segment_in (segments_lent self.now) i }
    {
        Segment {
            start: self.starts[i],
            end: self.ends[i],
            key: stored_key(self.keys[i]),
            confidence: self.confidences[i],
            windows: self.counts[i],
        }
    }

    // How long the segment in row i is, in seconds.
    pub fn seconds(&self, i: usize) -> f64
        requires { (i < length self.now.starts.now) × (i < length self.now.ends.now) }
        ensures { result ≡ seconds_in self.now.starts.now self.now.ends.now i }
    {
        self.ends[i] - self.starts[i]
    }

    // Whether the segment in row i is shorter than the minimum.
    pub fn is_short(&self, least: f64, i: usize) -> bool
        requires { (i < length self.now.starts.now) × (i < length self.now.ends.now) }
        ensures { result ≡ short_in least self.now.starts.now self.now.ends.now i }
    {
        self.seconds(i) < least
    }

    // How many rows there are.
    pub fn room(&self) -> usize
        ensures { result ≡ segment_room (segments_lent self.now) }
    {
        let told = self.confidences.len().min(self.counts.len());
        self.starts
            .len()
            .min(self.ends.len().min(self.keys.len().min(told)))
    }

    // The columns that the reported key and the alternate are read from.
    pub fn stretches(&self) -> LentStretches<'_>
        ensures { stretches_lent result ≡ stretches_of (segments_lent self.now) }
    {
        LentStretches {
            starts: self.starts,
            ends: self.ends,
            keys: self.keys,
        }
    }
}
