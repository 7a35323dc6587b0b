// Whether a header with the first segments of a card keeps the rules of a layout.
ghost use Rattle.std.specs.Prelude.{◌≡◌, ◌*◌, ◌^◌, ◌≤◌, ◌<◌, length};
ghost use Rattle.bits.specs.Bits.{bits_of_bytes};
ghost use Rattle.card.specs.Layout.{LayoutFits};
ghost use Rattle.card.specs.Rules.{card_broken, needless};
ghost use Rattle.card_form.specs.Form.{segment_place};
ghost use Rattle.card_mender.specs.Mending.{with_first};

use card::layout::{Header, Layout, layout_1};
use card::rules::header_broken;
use card_reader::judge::first_broken;

// Whether a header with the first `count` segments breaks a rule of the layout `rules`.
fn is_broken_with(bytes: &[u8], l: Layout, rules: Layout, h: Header, count: usize) -> bool
    requires { LayoutFits l × (count < 2 ^ 32) × (segment_place l count ≤ length bytes.now * 8) }
    ensures { result ≡ card_broken rules (with_first l (bits_of_bytes bytes.now) h count) }
{
    if header_broken(rules, h, count) {
        return true;
    }
    first_broken(bytes, l, rules, count) < count
}

// Whether another layout than 1 has a header and `count` segments that layout 1 holds.
pub fn is_needless_with(bytes: &[u8], l: Layout, h: Header, count: usize) -> bool
    requires { LayoutFits l × (count < 2 ^ 32) × (segment_place l count ≤ length bytes.now * 8) }
    ensures { result ≡ needless l (with_first l (bits_of_bytes bytes.now) h count) }
{
    if l.number == 1 {
        return false;
    }
    !is_broken_with(bytes, l, layout_1(), h, count)
}
