// A whole card, bit after bit into lent bytes, of whatever says one.
ghost use Rattle.std.specs.Prelude.{◌≡◌};
ghost use Rattle.laws.specs.Front.{front, list};
ghost use Rattle.bits.specs.inside.Pens.{BitsPut};
ghost use Rattle.card_form.specs.Form.{segments_bits, card_size, card_bytes};
ghost use Rattle.card_form.specs.Said.{card_said};
ghost use Rattle.card_pen.specs.inside.Putting.{CanPutSegments, CanWrite};

use crate::put::{end_card, put_segment, start_card};
use bits::pen::Pen;
use card::layout::Layout;
use card_form::said::SaysCard;

// Puts the segments behind what the pen has put.
fn put_segments<S: SaysCard>(bytes: &mut [u8], first: Pen, l: Layout, said: &S) -> Pen
    requires { CanPutSegments bytes.old first l (S.segment_of said.now) (S.count_of said.now) × S.is_whole said.now }
    ensures { BitsPut bytes.old bytes.new first result (segments_bits l (list (S.segment_of said.now) (S.count_of said.now))) }
{
    let count = said.count();
    let mut pen = first;
    for i in 0..count {
        let s = said.segment(i);
        pen = put_segment(bytes, pen, l, s);
    }
    pen
}

// Writes the card from the front of `bytes` and returns its length. Bytes beyond it stay.
pub fn write_card<S: SaysCard>(bytes: &mut [u8], l: Layout, said: &S) -> usize
    requires { CanWrite bytes.old l (S.header_of said.now) (S.segment_of said.now) (S.count_of said.now) × S.is_whole said.now }
    ensures { (result ≡ card_size l (S.count_of said.now)) × (bytes.new ≡ front (card_bytes l (card_said (S.header_of said.now) (S.segment_of said.now) (S.count_of said.now))) bytes.old) }
{
    let count = said.count();
    let header = said.header();
    let headed = start_card(bytes, l, header, count);
    let last = put_segments(bytes, headed, l, said);
    let filled = end_card(bytes, last);
    filled.at
}
