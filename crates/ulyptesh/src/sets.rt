// The calls on sets of key cards: 1,024 places of 512 bytes, with a summary of 26 numbers beside them.
ghost use Rattle.std.specs.Prelude.{◌≡◌};
ghost use Rattle.set_calls.specs.Sets.{lent_set, set_outcome, add_call, remove_call};

use set_calls::{SetChange, add_card, remove_card};

// Puts a card into the lowest free place of a set, and its numbers into the summary: the milliseconds of its segments
// by key, the number of cards, the number without a key. Refusals: 33 a set or summary of another size, a place that is
// spoilt, or a summary that is not the set's own; those of reading the card but 24; 30 a card of more than 512 bytes;
// 31 no free place.
#[unsafe(no_mangle)]
pub extern "C" fn ulyptesh_add_card(set: &mut [u8], summary: &mut [u64], card: &[u8]) -> SetChange
    ensures { set_outcome result (lent_set set.new summary.new) ≡ add_call card.now (lent_set set.old summary.old) }
{
    add_card(set, summary, card)
}

// Frees the lowest place of a set with the card, and takes its numbers out of the summary. Refusals: as above, but
// instead of 31, 32 no place with the card.
#[unsafe(no_mangle)]
pub extern "C" fn ulyptesh_remove_card(
    set: &mut [u8],
    summary: &mut [u64],
    card: &[u8],
) -> SetChange
    ensures { set_outcome result (lent_set set.new summary.new) ≡ remove_call card.now (lent_set set.old summary.old) }
{
    remove_card(set, summary, card)
}
