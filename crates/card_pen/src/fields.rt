// A card's fields, joined into numbers.
ghost use Rattle.bits.specs.Bits.{HasBits};
ghost use Rattle.card.specs.Layout.{LayoutFits, HeaderFits, SegmentFits};
ghost use Rattle.card_form.specs.Form.{header_width, header_bits, segment_width, segment_bits};

use bits::masks::joined;
use card::layout::{Header, Layout, Segment};

// A header as one number.
pub fn header_number(l: Layout, h: Header, count: usize) -> u64
    requires { LayoutFits l × HeaderFits l h count }
    ensures { HasBits (header_width l) result (header_bits l h count) }
{
    let key = joined(l.number, 5, h.key);
    let dsp = joined(key, 5, h.dsp);
    let alternate = joined(dsp, 5, h.alternate);
    let coverage = joined(alternate, 10, h.coverage);
    let confidence = joined(coverage, 10, h.confidence);
    joined(confidence, l.count, count as u64)
}

// A segment as one number.
pub fn segment_number(l: Layout, s: Segment) -> u64
    requires { LayoutFits l × SegmentFits l s }
    ensures { HasBits (segment_width l) result (segment_bits l s) }
{
    let keyed = joined(s.end, 5, s.key);
    joined(keyed, 10, s.confidence)
}
