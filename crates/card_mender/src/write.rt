// The card of a header and of segments that stand on another card, bit after bit into lent bytes.
ghost use Rattle.std.specs.Prelude.{◌≡◌, ◌*◌, ◌^◌, ◌≤◌, ◌<◌, length};
ghost use Rattle.laws.specs.Front.{front, list};
ghost use Rattle.bits.specs.Bits.{bits_of_bytes};
ghost use Rattle.bits.specs.inside.Pens.{BitsPut};
ghost use Rattle.card.specs.Layout.{LayoutFits};
ghost use Rattle.card_form.specs.Form.{segment_place, segment_on, segments_bits, card_size, card_bytes};
ghost use Rattle.card_mender.specs.Mending.{with_first};
ghost use Rattle.card_pen.specs.inside.Putting.{CanPutSegments, CanWrite};

use bits::pen::Pen;
use card::layout::{Header, Layout};
use card_pen::put::{end_card, put_segment, start_card};
use card_reader::on_card::segment_on;

// Puts the first `count` segments of `bytes`, a card of the layout `from`, behind what the pen has put.
fn put_segments(
    room: &mut [u8],
    first: Pen,
    l: Layout,
    bytes: &[u8],
    from: Layout,
    count: usize,
) -> Pen
    requires { CanPutSegments room.old first l (segment_on from (bits_of_bytes bytes.now)) count × LayoutFits from × (count < 2 ^ 32) × (segment_place from count ≤ length bytes.now * 8) }
    ensures { BitsPut room.old room.new first result (segments_bits l (list (segment_on from (bits_of_bytes bytes.now)) count)) }
{
    let mut pen = first;
    for i in 0..count {
        let s = segment_on(bytes, from, i);
        pen = put_segment(room, pen, l, s);
    }
    pen
}

// Writes the card from the front of `room` and returns its length. Bytes beyond it stay.
pub fn write_card(
    room: &mut [u8],
    l: Layout,
    h: Header,
    bytes: &[u8],
    from: Layout,
    count: usize,
) -> usize
    requires { CanWrite room.old l h (segment_on from (bits_of_bytes bytes.now)) count × LayoutFits from × (count < 2 ^ 32) × (segment_place from count ≤ length bytes.now * 8) }
    ensures { (result ≡ card_size l count) × (room.new ≡ front (card_bytes l (with_first from (bits_of_bytes bytes.now) h count)) room.old) }
{
    let headed = start_card(room, l, h, count);
    let last = put_segments(room, headed, l, bytes, from, count);
    let filled = end_card(room, last);
    filled.at
}
