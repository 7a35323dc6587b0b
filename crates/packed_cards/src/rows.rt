// A card's segments in lent rows of packed numbers.
ghost use Rattle.std.specs.Prelude.{◌≡◌, ◌<◌, length};
ghost use Rattle.card_form.specs.Rows.{row_at};

use card::layout::{Header, Segment};
use card_form::said::SaysCard;

// Segment `i`.
pub fn row_at(ends: &[u32], keys: &[u8], confidences: &[u16], i: usize) -> Segment
    requires { (i < length ends.now) × (i < length keys.now) × (i < length confidences.now) }
    ensures { result ≡ row_at ends.now keys.now confidences.now i }
{
    Segment {
        end: ends[i] as u64,
        key: keys[i] as u64,
        confidence: confidences[i] as u64,
    }
}

// A header, and a segment in each place of three slices.
#[derive(Clone, Copy)]
pub struct LentRows<'a> {
    pub header: Header,
    pub ends: &'a [u32],
    pub keys: &'a [u8],
    pub confidences: &'a [u16],
}

impl<'a> SaysCard for LentRows<'a> {
    ghost header_of = { λ r. r.header };

    ghost segment_of = { λ r. row_at r.ends.now r.keys.now r.confidences.now };

    ghost count_of = { λ r. length r.ends.now };

    ghost is_whole = { λ r. (length r.keys.now ≡ length r.ends.now) × (length r.confidences.now ≡ length r.ends.now) };

    fn header(&self) -> Header {
        self.header
    }

    fn count(&self) -> usize {
        self.ends.len()
    }

    fn segment(&self, i: usize) -> Segment {
        row_at(self.ends, self.keys, self.confidences, i)
    }
}
