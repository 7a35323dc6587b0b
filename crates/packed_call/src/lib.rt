// The call "write a card from packed numbers", whole.
#![tactic(auto)]

ghost use Rattle.std.specs.Prelude.{◌≡◌};
ghost use Rattle.card_form.specs.Rows.{lent_card_rows};
ghost use Rattle.packed_call.specs.PackedCards.{header_from, packed_call};
ghost use Rattle.written.specs.Outcome.{bytes_outcome};

use card::layout::Header;
use card_form::card_size;
use packed_cards::judge::layout_of;
use packed_cards::write::write_card;
use written::{Written, refused};

// Writes the key card of packed numbers, as reading gives them, from the front of `bytes`.
pub fn write_packed_card(
    key: u32,
    dsp: u32,
    alternate: u32,
    coverage: u32,
    confidence: u32,
    starts: &[u32],
    ends: &[u32],
    keys: &[u8],
    confidences: &[u16],
    bytes: &mut [u8],
) -> Written
    ensures { bytes_outcome result bytes.new ≡ packed_call (header_from key dsp alternate coverage confidence) (lent_card_rows starts.now ends.now keys.now confidences.now) bytes.old }
{
    let h = Header {
        key: key as u64,
        dsp: dsp as u64,
        alternate: alternate as u64,
        coverage: coverage as u64,
        confidence: confidence as u64,
    };
    let found = layout_of(h, starts, ends, keys, confidences);
    match found {
        None => refused(11),
        Some(l) => {
            if bytes.len() < card_size(l, ends.len()) {
                return refused(12);
            }
            Written {
                refusal: 0,
                length: write_card(bytes, l, h, ends, keys, confidences),
            }
        }
    }
}
