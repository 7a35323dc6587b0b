// What says a card, wherever its segments are read from: judged by the card rules, segment by segment.
ghost use Rattle.std.specs.Prelude.{◌≡◌, ℕ, ◌<◌};
ghost use Rattle.laws.specs.Front.{list};
ghost use Rattle.card.specs.Rules.{first_broken, card_broken, layout_for};
ghost use Rattle.card.specs.declared.layout.Header.{Header};
ghost use Rattle.card.specs.declared.layout.Segment.{Segment};
ghost use Rattle.card_form.specs.Said.{card_said};

use card::layout::{Header, Layout, Segment, layout_1, layout_2};
use card::rules::{header_broken, segment_broken};

// A header, and segments one by one.
pub trait SaysCard {
    ghost header_of: { Self → Header };

    ghost segment_of: { Self → ℕ → Segment };

    ghost count_of: { Self → ℕ };

    // Each of its segments is there.
    ghost is_whole: { Self → Type 0 };

    // The header.
    fn header(&self) -> Header
        requires { is_whole self.now }
        ensures { result ≡ header_of self.now };

    // How many segments there are.
    fn count(&self) -> usize
        requires { is_whole self.now }
        ensures { result ≡ count_of self.now };

    // Segment `i`.
    fn segment(&self, i: usize) -> Segment
        requires { is_whole self.now × (i < count_of self.now) }
        ensures { result ≡ segment_of self.now i };
}

// The first segment that breaks a rule of the layout, or their count.
pub fn first_broken<S: SaysCard>(said: &S, l: Layout) -> usize
    requires { S.is_whole said.now }
    ensures { result ≡ first_broken l (list (S.segment_of said.now) (S.count_of said.now)) }
{
    let count = said.count();
    let mut previous = 0;
    for i in 0..count {
        let s = said.segment(i);
        if segment_broken(l, count == 1, previous, s) {
            return i;
        }
        previous = s.end;
    }
    count
}

// Whether the header and the segments break a rule of the layout.
pub fn is_broken<S: SaysCard>(said: &S, l: Layout) -> bool
    requires { S.is_whole said.now }
    ensures { result ≡ card_broken l (card_said (S.header_of said.now) (S.segment_of said.now) (S.count_of said.now)) }
{
    let count = said.count();
    let header = said.header();
    if header_broken(l, header, count) {
        return true;
    }
    first_broken(said, l) < count
}

// The layout that it is written in: the first of which it breaks no rule.
pub fn layout_for<S: SaysCard>(said: &S) -> Option<Layout>
    requires { S.is_whole said.now }
    ensures { result ≡ layout_for (card_said (S.header_of said.now) (S.segment_of said.now) (S.count_of said.now)) }
{
    let first = layout_1();
    let second = layout_2();
    if !is_broken(said, first) {
        return Some(first);
    }
    if !is_broken(said, second) {
        return Some(second);
    }
    None
}
