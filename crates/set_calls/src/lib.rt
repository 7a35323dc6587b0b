// The calls "add a card to a set" and "take a card out", whole.
#![tactic(auto)]

ghost use Rattle.std.specs.Prelude.{◌≡◌, ◌≤◌, length};
ghost use Rattle.set_places.specs.Places.{in_place};
ghost use Rattle.set_calls.specs.Sets.{lent_set, untrue, set_outcome, add_call, remove_call};
ghost use Rattle.set_calls.specs.inside.Accepted.{set_refusal, change_of, accepted_as, place_for};
ghost use Rattle.set_calls.specs.declared.SetError.TheVariants.{Unreadable};

use card::layout::{Layout, MOST_SEGMENTS};
use card_reader::judge::{CardError, judge_card};
use set_places::places::{PLACE_SIZE, SET_SIZE, find_place, put_in_place};
use set_totals::one_card::{SUMMARY_NUMBERS, add_numbers, take_numbers};
use set_totals::whole_set::tally;

// The refusal's number, or 0, and which place was changed.
#[repr(C)]
#[derive(Clone, Copy)]
pub struct SetChange {
    pub refusal: u32,
    pub place: u32,
}

// Whether a lent set is of another size, has a spoilt place, or another summary than its own.
fn is_untrue(set: &[u8], summary: &[u64]) -> bool
    ensures { result ≡ untrue (lent_set set.now summary.now) }
{
    if set.len() != SET_SIZE {
        return true;
    }
    let mut fresh = [0; SUMMARY_NUMBERS];
    let spoilt = tally(set, &mut fresh);
    spoilt || summary != fresh.as_slice()
}

// Why a call changes nothing.
#[derive(Clone, Copy)]
pub enum SetError {
    UntrueSet,
    Unreadable(CardError),
    TooLong,
    FullSet,
    NotInSet,
}

impl From<CardError> for SetError {
    ghost from_gives = { λ error e. e ≡ Unreadable error };

    fn from(error: CardError) -> SetError {
        SetError::Unreadable(error)
    }
}

impl SetError {
    // The number by which the request's table refuses.
    fn number(self) -> u32
        ensures { result ≡ set_refusal self }
    {
        match self {
            SetError::UntrueSet => 33,
            SetError::Unreadable(error) => error.number(),
            SetError::TooLong => 30,
            SetError::FullSet => 31,
            SetError::NotInSet => 32,
        }
    }
}

impl From<Result<u32, SetError>> for SetChange {
    ghost from_gives = { λ done change. change ≡ change_of done };

    fn from(done: Result<u32, SetError>) -> SetChange {
        match done {
            Ok(place) => SetChange { refusal: 0, place },
            Err(error) => SetChange {
                refusal: error.number(),
                place: 0,
            },
        }
    }
}

// The card's layout, as far as the table goes before a place is looked for.
fn accept(set: &[u8], summary: &[u64], card: &[u8]) -> Result<Layout, SetError>
    ensures { result ≡ accepted_as card.now (lent_set set.now summary.now) }
{
    if is_untrue(set, summary) {
        return Err(SetError::UntrueSet);
    }
    let l = judge_card(card, MOST_SEGMENTS)?;
    if card.len() > PLACE_SIZE {
        return Err(SetError::TooLong);
    }
    Ok(l)
}

// An accepted card's layout, and the lowest place with the bytes `wanted`; `missing` where none has them.
fn place_for(
    set: &[u8],
    summary: &[u64],
    card: &[u8],
    wanted: &[u8],
    missing: SetError,
) -> Result<(Layout, usize), SetError>
    requires { length wanted.now ≤ length card.now }
    ensures { result ≡ place_for missing (in_place wanted.now) card.now (lent_set set.now summary.now) }
{
    let l = accept(set, summary, card)?;
    let place = find_place(set, wanted).ok_or(missing)?;
    Ok((l, place))
}

// Puts a card into the lowest free place, which it returns, and its numbers into the summary.
fn try_add(set: &mut [u8], summary: &mut [u64], card: &[u8]) -> Result<u32, SetError>
    ensures { set_outcome (change_of result) (lent_set set.new summary.new) ≡ add_call card.now (lent_set set.old summary.old) }
{
    let (l, place) = place_for(set, summary, card, &[], SetError::FullSet)?;
    put_in_place(set, place, card);
    add_numbers(card, l, summary);
    Ok(place as u32)
}

// Frees the lowest place with the card, which it returns, and takes its numbers out of the summary.
fn try_remove(set: &mut [u8], summary: &mut [u64], card: &[u8]) -> Result<u32, SetError>
    ensures { set_outcome (change_of result) (lent_set set.new summary.new) ≡ remove_call card.now (lent_set set.old summary.old) }
{
    let (l, place) = place_for(set, summary, card, card, SetError::NotInSet)?;
    put_in_place(set, place, &[]);
    take_numbers(card, l, summary);
    Ok(place as u32)
}

// Puts a card into the lowest free place of a set, and its numbers into the summary.
pub fn add_card(set: &mut [u8], summary: &mut [u64], card: &[u8]) -> SetChange
    ensures { set_outcome result (lent_set set.new summary.new) ≡ add_call card.now (lent_set set.old summary.old) }
{
    SetChange::from(try_add(set, summary, card))
}

// Frees the lowest place of a set with the card, and takes its numbers out of the summary.
pub fn remove_card(set: &mut [u8], summary: &mut [u64], card: &[u8]) -> SetChange
    ensures { set_outcome result (lent_set set.new summary.new) ≡ remove_call card.now (lent_set set.old summary.old) }
{
    SetChange::from(try_remove(set, summary, card))
}
