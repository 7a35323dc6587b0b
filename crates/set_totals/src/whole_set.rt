// A set's summary, worked out afresh.
ghost use Rattle.std.specs.Prelude.{◌≡◌, length, replicate};
ghost use Rattle.set_places.specs.Places.{place_size, set_size, card_in, read_whole, spoilt, any_spoilt};
ghost use Rattle.set_totals.specs.Summary.{summary_of, numbers_of};
ghost use Rattle.set_totals.specs.inside.Numbers.{summary_numbers, more, read_number, CanAdd};

use crate::one_card::add_numbers;
use card::layout::MOST_SEGMENTS;
use card_reader::judge::judge_card;
use set_places::bytes::all_zero;
use set_places::places::{PLACE_SIZE, PLACES, card_end};

// Adds the numbers of the card in a place, if there is one; returns whether the place is spoilt.
fn tally_place(place: &[u8], numbers: &mut [u64]) -> bool
    requires { (length place.now ≡ place_size) × CanAdd numbers.old }
    ensures { (result ≡ spoilt place.now) × (numbers.new ≡ more (read_number (read_whole (card_in place.now))) numbers.old) }
{
    if all_zero(place) {
        return false;
    }
    let end = card_end(place);
    match judge_card(&place[..end], MOST_SEGMENTS) {
        Err(_) => true,
        Ok(l) => {
            add_numbers(&place[..end], l, numbers);
            !all_zero(&place[end..])
        }
    }
}

// Works a set's summary out into 26 zeros; returns whether a place is spoilt.
pub fn tally(set: &[u8], numbers: &mut [u64]) -> bool
    requires { (length set.now ≡ set_size) × (numbers.old ≡ replicate summary_numbers 0) }
    ensures { (result ≡ any_spoilt set.now) × (numbers.new ≡ numbers_of (summary_of set.now)) }
{
    let mut spoilt = false;
    for i in 0..PLACES {
        spoilt |= tally_place(&set[i * PLACE_SIZE..(i + 1) * PLACE_SIZE], numbers);
    }
    spoilt
}
