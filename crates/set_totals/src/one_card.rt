// What one card adds to a summary's numbers, or takes from them.
ghost use Rattle.std.specs.Prelude.{◌≡◌, ◌+◌, ◌^◌, ◌<◌, length, get_or, Ok};
ghost use Rattle.bits.specs.Bits.{bits_of_bytes};
ghost use Rattle.card.specs.Layout.{most_segments};
ghost use Rattle.card_form.specs.Form.{count_on, meaning_on};
ghost use Rattle.card_reader.specs.Reading.{judged_of};
ghost use Rattle.set_totals.specs.Summary.{key_time, keyless_of};
ghost use Rattle.set_totals.specs.inside.Numbers.{summary_numbers, card_number, raised, more, less, CanAdd, CanTake};

use card::layout::{Header, Layout};
use card_reader::on_card::{count_on, header_on, segment_on};

// How many numbers a summary has: 24 totals, the cards, and those without a key.
pub const SUMMARY_NUMBERS: usize = 26;

// Where the number of cards stands, behind the totals.
const CARDS: usize = 24;

// Where the number of cards without a key stands.
const KEYLESS: usize = 25;

// Adds to number k.
fn raise(numbers: &mut [u64], k: usize, by: u64)
    requires { (k < length numbers.old) × (get_or numbers.old k 0 + by < 2 ^ 64) }
    ensures { numbers.new ≡ raised k by numbers.old }
{
    numbers[k] += by;
}

// Adds each segment's milliseconds to the total of its key.
fn add_times(card: &[u8], l: Layout, count: usize, numbers: &mut [u64])
    requires { (judged_of card.now most_segments ≡ Ok l) × (count ≡ count_on l (bits_of_bytes card.now)) × CanAdd numbers.old }
    ensures { numbers.new ≡ more (key_time (meaning_on l (bits_of_bytes card.now))) numbers.old }
{
    let mut previous = 0;
    for i in 0..count {
        let s = segment_on(card, l, i);
        raise(numbers, s.key as usize, s.end - previous);
        previous = s.end;
    }
}

// 1 for a card without a key, else 0.
fn keyless(h: Header) -> u64
    ensures { result ≡ keyless_of h }
{
    u64::from(h.key == 24)
}

// Adds a card's numbers.
pub fn add_numbers(card: &[u8], l: Layout, numbers: &mut [u64])
    requires { (judged_of card.now most_segments ≡ Ok l) × CanAdd numbers.old }
    ensures { numbers.new ≡ more (card_number (meaning_on l (bits_of_bytes card.now))) numbers.old }
{
    let count = count_on(card, l);
    let without = keyless(header_on(card, l));
    add_times(card, l, count, numbers);
    raise(numbers, CARDS, 1);
    raise(numbers, KEYLESS, without);
}

// Takes each of several numbers away.
fn subtract(numbers: &mut [u64], others: &[u64])
    requires { (length others.now ≡ summary_numbers) × CanTake (λ k. get_or others.now k 0) numbers.old }
    ensures { numbers.new ≡ less (λ k. get_or others.now k 0) numbers.old }
{
    for k in 0..SUMMARY_NUMBERS {
        numbers[k] -= others[k];
    }
}

// Takes a card's numbers away.
pub fn take_numbers(card: &[u8], l: Layout, numbers: &mut [u64])
    requires { (judged_of card.now most_segments ≡ Ok l) × CanTake (card_number (meaning_on l (bits_of_bytes card.now))) numbers.old }
    ensures { numbers.new ≡ less (card_number (meaning_on l (bits_of_bytes card.now))) numbers.old }
{
    let mut own = [0; SUMMARY_NUMBERS];
    add_numbers(card, l, &mut own);
    subtract(numbers, &own);
}
