// What is kept of a damaged card's header.
ghost use Rattle.std.specs.Prelude.{◌≡◌};
ghost use Rattle.card_mender.specs.Mending.{fewest, without_alternate, key_broken, alternate_goes, mended_header};

use card::layout::{Header, Layout};
use card::rules::header_broken;

// The fewest segments that a card with this key has.
fn fewest(h: Header) -> usize
    ensures { result ≡ fewest h }
{
    if h.key == 24 { 0 } else { 1 }
}

// The header without an alternate.
fn without_alternate(h: Header) -> Header
    ensures { result ≡ without_alternate h }
{
    Header {
        key: h.key,
        dsp: h.dsp,
        alternate: 24,
        coverage: 0,
        confidence: h.confidence,
    }
}

// Whether key, DSP key or confidence break a rule.
pub fn key_broken(l: Layout, h: Header) -> bool
    ensures { result ≡ key_broken l h }
{
    header_broken(l, without_alternate(h), fewest(h))
}

// Whether, where they break none, the alternate or its coverage does.
pub fn alternate_goes(l: Layout, h: Header) -> bool
    ensures { result ≡ alternate_goes l h }
{
    header_broken(l, h, fewest(h))
}

// What is kept of the header.
pub fn mended_header(l: Layout, h: Header) -> Header
    ensures { result ≡ mended_header l h }
{
    if alternate_goes(l, h) {
        return without_alternate(h);
    }
    h
}
