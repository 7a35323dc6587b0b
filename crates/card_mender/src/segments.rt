// Which segments of a damaged card are kept, and in which layout.
ghost use Rattle.std.specs.Prelude.{◌≡◌, ◌*◌, ◌^◌, ◌≤◌, ◌<◌, length};
ghost use Rattle.laws.specs.Front.{list};
ghost use Rattle.bits.specs.Bits.{bits_of_bytes};
ghost use Rattle.card.specs.Layout.{LayoutFits};
ghost use Rattle.card_form.specs.Form.{header_width, segment_place, header_on, segment_on, count_on};
ghost use Rattle.card_mender.specs.Mending.{standing, good_run, kept_on, with_first, mended_layout};

use crate::judge::is_needless_with;
use card::layout::{Header, Layout, layout_1};
use card_form::card_size;
use card_reader::judge::first_broken;
use numbers::counts::fewer;

// How many segments are counted and wholly there, of `claimed` that are counted.
fn standing_count(bytes: &[u8], l: Layout, claimed: usize) -> usize
    requires { LayoutFits l × (header_width l ≤ length bytes.now * 8) × (claimed ≡ count_on l (bits_of_bytes bytes.now)) × (claimed < 2 ^ 32) }
    ensures { result ≡ standing l bytes.now }
{
    if bytes.len() >= card_size(l, claimed) {
        return claimed;
    }
    (bytes.len() * 8 - (39 + l.count)) / (l.end + 5 + 10)
}

// How many of `count` segments are good in a row from the front.
fn good_run(bytes: &[u8], l: Layout, count: usize) -> usize
    requires { LayoutFits l × (count < 2 ^ 32) × (segment_place l count ≤ length bytes.now * 8) }
    ensures { result ≡ good_run l (list (segment_on l (bits_of_bytes bytes.now)) count) }
{
    let run = first_broken(bytes, l, l, count);
    if run == 0 {
        return first_broken(bytes, l, l, fewer(1, count));
    }
    run
}

// How many segments are kept.
pub fn kept_count(bytes: &[u8], l: Layout, h: Header, claimed: usize) -> usize
    requires { LayoutFits l × (header_width l ≤ length bytes.now * 8) × (h ≡ header_on l (bits_of_bytes bytes.now)) × (claimed ≡ count_on l (bits_of_bytes bytes.now)) × (claimed < 2 ^ 32) }
    ensures { result ≡ kept_on l bytes.now }
{
    if h.key == 24 {
        return 0;
    }
    good_run(bytes, l, standing_count(bytes, l, claimed))
}

// The layout of a header with the first `count` segments: the old one, unless that is needless.
pub fn mended_layout(bytes: &[u8], l: Layout, h: Header, count: usize) -> Layout
    requires { LayoutFits l × (count < 2 ^ 32) × (segment_place l count ≤ length bytes.now * 8) }
    ensures { result ≡ mended_layout l (with_first l (bits_of_bytes bytes.now) h count) }
{
    if is_needless_with(bytes, l, h, count) {
        return layout_1();
    }
    l
}
