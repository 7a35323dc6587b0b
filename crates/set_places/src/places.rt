// The places of a set: which holds what, and one filled anew.
ghost use Rattle.std.specs.Prelude.{◌≡◌, ◌≤◌, ◌<◌, ◌+◌, ◌*◌, min, length};
ghost use Rattle.laws.specs.Every.{same_numbers};
ghost use Rattle.set_places.specs.Places.{places, place_size, set_size, place_at, in_place, length_on, lowest_with, found_place, placed};

use crate::bytes::{all_zero, same_bytes};
use card::layout::{layout_1, layout_numbered};
use card_form::card_size;
use card_reader::on_card::{count_on, number_on};

// How many places a set has.
pub const PLACES: usize = 1_024;

// How many bytes a place has.
pub const PLACE_SIZE: usize = 512;

// How many bytes a set has.
pub const SET_SIZE: usize = PLACES * PLACE_SIZE;

// Where the card at a place's front ends: its layout and count give its length, which the place may not have.
pub fn card_end(place: &[u8]) -> usize
    requires { 7 ≤ length place.now }
    ensures { result ≡ min (length_on place.now) (length place.now) }
{
    let l = layout_numbered(number_on(place)).unwrap_or(layout_1());
    let count = count_on(place, l);
    card_size(l, count).min(place.len())
}

// Whether a place holds a card, and zeros behind it; of no bytes, whether it is free.
fn holds(place: &[u8], card: &[u8]) -> bool
    requires { (length place.now ≡ place_size) × (length card.now ≤ place_size) }
    ensures { result ≡ same_numbers place.now (in_place card.now) }
{
    same_bytes(&place[..card.len()], card) & all_zero(&place[card.len()..])
}

// Whether place i of a set holds a card, and zeros behind it; of no bytes, whether it is free.
fn place_holds(set: &[u8], i: usize, card: &[u8]) -> bool
    requires { ((i + 1) * place_size ≤ length set.now) × (length card.now ≤ place_size) }
    ensures { result ≡ same_numbers (place_at set.now i) (in_place card.now) }
{
    holds(&set[i * PLACE_SIZE..(i + 1) * PLACE_SIZE], card)
}

// The lowest place that holds a card; of no bytes, the lowest that is free.
pub fn find_place(set: &[u8], card: &[u8]) -> Option<usize>
    requires { (length set.now ≡ set_size) × (length card.now ≤ place_size) }
    ensures { result ≡ found_place (lowest_with (in_place card.now) set.now) }
{
    (0..PLACES).find(|i| place_holds(set, *i, card))
}

// A card goes into a place, and zeros behind it.
fn fill_place(place: &mut [u8], card: &[u8])
    requires { (length place.old ≡ place_size) × (length card.now ≤ place_size) }
    ensures { place.new ≡ in_place card.now }
{
    let (front, behind) = place.split_at_mut(card.len());
    for k in 0..card.len() {
        front[k] = card[k];
    }
    behind.fill(0);
}

// A card goes into place i of a set; of no bytes, the place is freed.
pub fn put_in_place(set: &mut [u8], i: usize, card: &[u8])
    requires { (length set.old ≡ set_size) × (i < places) × (length card.now ≤ place_size) }
    ensures { set.new ≡ placed i (in_place card.now) set.old }
{
    fill_place(&mut set[i * PLACE_SIZE..(i + 1) * PLACE_SIZE], card);
}
