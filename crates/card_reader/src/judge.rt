// Whether a card can be read, by the request's table.
ghost use Rattle.std.specs.Prelude.{◌≡◌, ◌*◌, ◌^◌, ◌≤◌, ◌<◌, length};
ghost use Rattle.laws.specs.Front.{list};
ghost use Rattle.bits.specs.Bits.{bits_of_bytes};
ghost use Rattle.card.specs.Layout.{LayoutFits};
ghost use Rattle.card.specs.Rules.{first_broken, card_broken, needless};
ghost use Rattle.card_form.specs.Form.{segment_place, count_on, segment_on, meaning_on};
ghost use Rattle.card_reader.specs.Reading.{refusal_number, judged_of};

use crate::on_card::{count_on, filler_set, header_on, number_on, segment_on};
use card::layout::{Layout, layout_1, layout_numbered};
use card::rules::{header_broken, segment_broken};
use card_form::card_size;

// Why a card can't be read.
#[derive(Clone, Copy, PartialEq, Eq)]
pub enum CardError {
    WrongLength,
    UnknownLayout,
    BrokenRule,
    NeedlessLayout,
    TooFewRows,
}

impl CardError {
    // The number by which the request's table refuses.
    pub fn number(self) -> u32
        ensures { result ≡ refusal_number self }
    {
        match self {
            CardError::WrongLength => 20,
            CardError::UnknownLayout => 21,
            CardError::BrokenRule => 22,
            CardError::NeedlessLayout => 23,
            CardError::TooFewRows => 24,
        }
    }
}

// The first of `count` segments that breaks a rule of the layout `rules`, or their count.
pub fn first_broken(bytes: &[u8], l: Layout, rules: Layout, count: usize) -> usize
    requires { LayoutFits l × (count < 2 ^ 32) × (segment_place l count ≤ length bytes.now * 8) }
    ensures { result ≡ first_broken rules (list (segment_on l (bits_of_bytes bytes.now)) count) }
{
    let mut previous = 0;
    for i in 0..count {
        let s = segment_on(bytes, l, i);
        if segment_broken(rules, count == 1, previous, s) {
            return i;
        }
        previous = s.end;
    }
    count
}

// Whether what a card of `count` segments says breaks a rule of the layout `rules`.
fn is_broken(bytes: &[u8], l: Layout, rules: Layout, count: usize) -> bool
    requires { LayoutFits l × (count < 2 ^ 32) × (count ≡ count_on l (bits_of_bytes bytes.now)) × (segment_place l count ≤ length bytes.now * 8) }
    ensures { result ≡ card_broken rules (meaning_on l (bits_of_bytes bytes.now)) }
{
    if header_broken(rules, header_on(bytes, l), count) {
        return true;
    }
    first_broken(bytes, l, rules, count) < count
}

// Whether a card of another layout than 1 says what layout 1 holds.
fn is_needless(bytes: &[u8], l: Layout, count: usize) -> bool
    requires { LayoutFits l × (count < 2 ^ 32) × (count ≡ count_on l (bits_of_bytes bytes.now)) × (segment_place l count ≤ length bytes.now * 8) }
    ensures { result ≡ needless l (meaning_on l (bits_of_bytes bytes.now)) }
{
    if l.number == 1 {
        return false;
    }
    !is_broken(bytes, l, layout_1(), count)
}

// The layout under which bytes are read, with so many rows for segments, or why they can't be.
pub fn judge_card(bytes: &[u8], rows: usize) -> Result<Layout, CardError>
    ensures { result ≡ judged_of bytes.now rows }
{
    if bytes.len() < 7 {
        return Err(CardError::WrongLength);
    }
    let Some(l) = layout_numbered(number_on(bytes)) else {
        return Err(CardError::UnknownLayout);
    };
    let count = count_on(bytes, l);
    if !(bytes.len() == card_size(l, count)) {
        return Err(CardError::WrongLength);
    }
    if is_broken(bytes, l, l, count) | filler_set(bytes, l, count) {
        return Err(CardError::BrokenRule);
    }
    if is_needless(bytes, l, count) {
        return Err(CardError::NeedlessLayout);
    }
    if rows < count {
        return Err(CardError::TooFewRows);
    }
    Ok(l)
}
