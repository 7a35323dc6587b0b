// What stands on a card, field by field.
ghost use Rattle.std.specs.Prelude.{◌≡◌, ◌+◌, ◌*◌, ◌^◌, ◌≤◌, ◌<◌, length};
ghost use Rattle.bits.specs.Bits.{bits_of_bytes};
ghost use Rattle.card.specs.Layout.{LayoutFits};
ghost use Rattle.card_form.specs.Form.{header_width, segment_place, card_size, number_on, header_on, count_on, segment_on, filler_set};

use bits::reader::{field, get_bits};
use card::layout::{Header, Layout, Segment};

// The number of the layout; of no bytes it is 0.
pub fn number_on(bytes: &[u8]) -> u64
    ensures { result ≡ number_on (bits_of_bytes bytes.now) }
{
    if bytes.len() == 0 {
        return 0;
    }
    get_bits(bytes, 0, 4)
}

// The header.
pub fn header_on(bytes: &[u8], l: Layout) -> Header
    requires { LayoutFits l × (header_width l ≤ length bytes.now * 8) }
    ensures { result ≡ header_on l (bits_of_bytes bytes.now) }
{
    let behind = l.count;
    let number = get_bits(bytes, 0, 39 + behind);
    Header {
        key: field(number, 30 + behind, 5),
        dsp: field(number, 25 + behind, 5),
        alternate: field(number, 20 + behind, 5),
        coverage: field(number, 10 + behind, 10),
        confidence: field(number, behind, 10),
    }
}

// The segment count.
pub fn count_on(bytes: &[u8], l: Layout) -> usize
    requires { LayoutFits l × (header_width l ≤ length bytes.now * 8) }
    ensures { (result ≡ count_on l (bits_of_bytes bytes.now)) × (result < 2 ^ 32) }
{
    let number = get_bits(bytes, 0, 39 + l.count);
    field(number, 0, l.count) as usize
}

// Segment i.
pub fn segment_on(bytes: &[u8], l: Layout, i: usize) -> Segment
    requires { LayoutFits l × (i < 2 ^ 32) × (segment_place l (i + 1) ≤ length bytes.now * 8) }
    ensures { result ≡ segment_on l (bits_of_bytes bytes.now) i }
{
    let width = l.end + 5 + 10;
    let number = get_bits(bytes, 39 + l.count + i * width, width);
    Segment {
        end: field(number, 15, l.end),
        key: field(number, 10, 5),
        confidence: field(number, 0, 10),
    }
}

// Whether a bit behind the last segment is set, of as many bytes as a card of `count` segments has.
pub fn filler_set(bytes: &[u8], l: Layout, count: usize) -> bool
    requires { LayoutFits l × (count < 2 ^ 32) × (count ≡ count_on l (bits_of_bytes bytes.now)) × (length bytes.now ≡ card_size l count) }
    ensures { result ≡ filler_set l (bits_of_bytes bytes.now) }
{
    let at = 39 + l.count + count * (l.end + 5 + 10);
    let filler = get_bits(bytes, at, bytes.len() * 8 - at);
    !(filler == 0)
}
