// The card rules, on packed numbers.
ghost use Rattle.std.specs.Prelude.{◌≡◌};
ghost use Rattle.card.specs.Rules.{only_one, header_broken, segment_broken};

use crate::layout::{Header, Layout, Segment};

// Whether one of two tests passes, and the other does not.
fn only_one(a: bool, b: bool) -> bool
    ensures { result ≡ only_one a b }
{
    (a & !b) | (!a & b)
}

// Whether a header of `count` segments breaks a rule.
pub fn header_broken(l: Layout, h: Header, count: usize) -> bool
    ensures { result ≡ header_broken l h count }
{
    let silent = h.key == 24;
    let alone = h.alternate == 24;
    (h.key > 24)
        | (h.dsp > 24)
        | (h.alternate > 24)
        | (h.coverage > 1000)
        | (h.confidence > 1000)
        | (count > l.most)
        | only_one(silent, h.dsp == 24)
        | only_one(silent, count == 0)
        | (silent & !alone)
        | (silent & !(h.confidence == 0))
        | (alone & !(h.coverage == 0))
        | (!silent & (h.alternate == h.key))
}

// Whether a segment breaks a rule behind one that ends at `previous`; one that stands alone may end there.
pub fn segment_broken(l: Layout, alone: bool, previous: u64, s: Segment) -> bool
    ensures { result ≡ segment_broken l alone previous s }
{
    (!alone & (s.end <= previous)) | (s.end > l.last) | (s.key > 23) | (s.confidence > 1000)
}
