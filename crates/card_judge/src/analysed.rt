// An analysis in seconds and parts of one: its packed numbers, and the layout of its card.
ghost use Rattle.std.specs.Prelude.{◌≡◌, length};
ghost use Rattle.card_judge.specs.Analysed.{packed_part, packed_header, packed_segment, packed_at, analysis, first_gap, layout_of};

use card::layout::{Header, LAST_END, Layout, Segment};
use card_form::said::{SaysCard, layout_for};
use card_form::unequal_lengths;
use packed::{milliseconds, thousandths};

// What an analysis says of the whole track: keys by number, 24 for a missing one.
#[derive(Clone, Copy)]
pub struct Overall {
    pub key: u32,
    pub dsp: u32,
    pub alternate: u32,
    pub coverage: f32,
    pub confidence: f32,
}

// The packed number of a part of one, or 1001.
fn packed_part(x: f32) -> u64
    ensures { result ≡ packed_part x }
{
    thousandths(x).unwrap_or(1001)
}

// A header's packed numbers.
pub fn packed_header(o: Overall) -> Header
    ensures { result ≡ packed_header o }
{
    Header {
        key: o.key as u64,
        dsp: o.dsp as u64,
        alternate: o.alternate as u64,
        coverage: packed_part(o.coverage),
        confidence: packed_part(o.confidence),
    }
}

// A segment's packed numbers.
pub fn packed_segment(end: f64, key: u8, confidence: f32) -> Segment
    ensures { result ≡ packed_segment end key confidence }
{
    Segment {
        end: milliseconds(end, LAST_END).unwrap_or(LAST_END + 1),
        key: key as u64,
        confidence: packed_part(confidence),
    }
}

// The first segment that does not start where the one before it ends, or their count.
fn first_gap(starts: &[f64], ends: &[f64]) -> usize
    requires { length starts.now ≡ length ends.now }
    ensures { result ≡ first_gap starts.now ends.now }
{
    let count = ends.len();
    let mut previous = 0.0;
    for i in 0..count {
        if !(starts[i] == previous) {
            return i;
        }
        previous = ends[i];
    }
    count
}

// An analysis that is lent: what it says of the whole track, and its segments in three slices.
#[derive(Clone, Copy)]
pub struct LentAnalysis<'a> {
    pub overall: Overall,
    pub ends: &'a [f64],
    pub keys: &'a [u8],
    pub confidences: &'a [f32],
}

impl<'a> SaysCard for LentAnalysis<'a> {
    ghost header_of = { λ a. packed_header a.overall };

    ghost segment_of = { λ a. packed_at a.ends.now a.keys.now a.confidences.now };

    ghost count_of = { λ a. length a.ends.now };

    ghost is_whole = { λ a. (length a.keys.now ≡ length a.ends.now) × (length a.confidences.now ≡ length a.ends.now) };

    fn header(&self) -> Header {
        packed_header(self.overall)
    }

    fn count(&self) -> usize {
        self.ends.len()
    }

    fn segment(&self, i: usize) -> Segment {
        packed_segment(self.ends[i], self.keys[i], self.confidences[i])
    }
}

// The layout that an analysis is written in: the first of which it breaks no rule.
pub fn layout_of(
    o: Overall,
    starts: &[f64],
    ends: &[f64],
    keys: &[u8],
    confidences: &[f32],
) -> Option<Layout>
    ensures { result ≡ layout_of (analysis o starts.now ends.now keys.now confidences.now) }
{
    let count = ends.len();
    if unequal_lengths(starts.len(), count, keys.len(), confidences.len()) {
        return None;
    }
    if first_gap(starts, ends) < count {
        return None;
    }
    let said = LentAnalysis {
        overall: o,
        ends,
        keys,
        confidences,
    };
    layout_for(&said)
}
