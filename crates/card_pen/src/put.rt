// A card's parts, put bit after bit into lent bytes.
ghost use Rattle.bits.specs.Bits.{bits_of};
ghost use Rattle.bits.specs.inside.Pens.{BitsPut, fresh_pen};
ghost use Rattle.card_form.specs.Form.{header_bits, segment_bits};
ghost use Rattle.card_pen.specs.inside.Putting.{CanStart, CanPutSegment, CanEnd, filler_width};

use crate::fields::{header_number, segment_number};
use bits::pen::{Pen, put_bits};
use card::layout::{Header, Layout, Segment};

// Puts the header of a card of `count` segments at the front.
pub fn start_card(bytes: &mut [u8], l: Layout, h: Header, count: usize) -> Pen
    requires { CanStart bytes.old l h count }
    ensures { BitsPut bytes.old bytes.new fresh_pen result (header_bits l h count) }
{
    let fresh = Pen {
        at: 0,
        count: 0,
        waiting: 0,
    };
    let number = header_number(l, h, count);
    put_bits(bytes, fresh, 39 + l.count, number)
}

// Puts a segment behind what the pen has put.
pub fn put_segment(bytes: &mut [u8], pen: Pen, l: Layout, s: Segment) -> Pen
    requires { CanPutSegment bytes.old pen l s }
    ensures { BitsPut bytes.old bytes.new pen result (segment_bits l s) }
{
    let number = segment_number(l, s);
    put_bits(bytes, pen, l.end + 5 + 10, number)
}

// Fills the last byte with zero bits.
pub fn end_card(bytes: &mut [u8], pen: Pen) -> Pen
    requires { CanEnd bytes.old pen }
    ensures { BitsPut bytes.old bytes.new pen result (bits_of (filler_width pen) 0) }
{
    put_bits(bytes, pen, (8 - pen.count) % 8, 0)
}
