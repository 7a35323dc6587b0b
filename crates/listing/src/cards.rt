// A card's listing, written from the front of lent bytes.
ghost use Rattle.std.specs.Prelude.{◌≡◌, ◌*◌, ◌≤◌, length, replicate};
ghost use Rattle.laws.specs.Front.{list};
ghost use Rattle.bits.specs.Bits.{bits_of_bytes};
ghost use Rattle.card_form.specs.Form.{count_on, segment_on, meaning_on};
ghost use Rattle.listing.specs.Lines.{AtFront};
ghost use Rattle.listing.specs.Listing.{segment_lines, refusal_line, card_lines, listing_of, longest_line, longest_listing};
ghost use Rattle.listing.specs.inside.Readable.{CanList};

use crate::lines::{write_bytes, write_key_line, write_line, write_number};
use card::layout::{Layout, MOST_SEGMENTS};
use card_reader::judge::judge_card;
use card_reader::on_card::{count_on, header_on, segment_on};

// Zeros, as many as the longest listing has bytes.
pub fn listing_room() -> [u8; 208_854]
    ensures { result ≡ replicate longest_listing 0 }
{
    [0; 208_854]
}

// A line for each of the `count` segments of a card.
fn write_lines(card: &[u8], l: Layout, count: usize, bytes: &mut [u8]) -> usize
    requires { CanList card.now l × (count ≡ count_on l (bits_of_bytes card.now)) × (count * longest_line ≤ length bytes.old) }
    ensures { AtFront (segment_lines (list (segment_on l (bits_of_bytes card.now)) count)) bytes.old bytes.new result }
{
    let mut start = 0;
    let mut at = 0;
    for i in 0..count {
        let s = segment_on(card, l, i);
        at += write_line(start, s.end, s.key, &mut bytes[at..]);
        start = s.end;
    }
    at
}

// What a readable card says.
fn write_card_lines(card: &[u8], l: Layout, bytes: &mut [u8]) -> usize
    requires { CanList card.now l × (longest_listing ≤ length bytes.old) }
    ensures { AtFront (card_lines (meaning_on l (bits_of_bytes card.now))) bytes.old bytes.new result }
{
    let header = header_on(card, l);
    let count = count_on(card, l);
    let key = header.key;
    if key == 24 {
        return write_bytes(b"no key\n", bytes);
    }
    let at = write_key_line(key, bytes);
    at + write_lines(card, l, count, &mut bytes[at..])
}

// A refusal.
fn write_refusal(number: u32, bytes: &mut [u8]) -> usize
    requires { longest_listing ≤ length bytes.old }
    ensures { AtFront (refusal_line number) bytes.old bytes.new result }
{
    let at = write_bytes(b"refused ", bytes);
    at + write_number(number as u64, b'\n', &mut bytes[at..])
}

// Writes a card's listing from the front of `bytes`, and returns its length.
pub fn write_listing(card: &[u8], bytes: &mut [u8]) -> usize
    requires { longest_listing ≤ length bytes.old }
    ensures { AtFront (listing_of card.now) bytes.old bytes.new result }
{
    match judge_card(card, MOST_SEGMENTS) {
        Err(error) => write_refusal(error.number(), bytes),
        Ok(l) => write_card_lines(card, l, bytes),
    }
}
