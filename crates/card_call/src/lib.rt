// The call "write a card", whole.
#![tactic(auto)]

ghost use Rattle.std.specs.Prelude.{◌≡◌};
ghost use Rattle.card_judge.specs.Analysed.{analysis};
ghost use Rattle.card_call.specs.Cards.{overall, card_call};
ghost use Rattle.written.specs.Outcome.{bytes_outcome};

use card_form::card_size;
use card_judge::analysed::{Overall, layout_of};
use card_writer::write::write_card;
use written::{Written, refused};

// Writes the key card of an analysis from the front of `bytes`: keys by number, 24 for a missing one,
// and segments in four slices. Refusals: 11 a card rule broken or slices of unequal length, 12 too few bytes.
pub fn write_analysed_card(
    key: u32,
    dsp: u32,
    alternate: u32,
    coverage: f32,
    confidence: f32,
    starts: &[f64],
    ends: &[f64],
    keys: &[u8],
    confidences: &[f32],
    bytes: &mut [u8],
) -> Written
    ensures { bytes_outcome result bytes.new ≡ card_call (analysis (overall key dsp alternate coverage confidence) starts.now ends.now keys.now confidences.now) bytes.old }
{
    let o = Overall {
        key,
        dsp,
        alternate,
        coverage,
        confidence,
    };
    let found = layout_of(o, starts, ends, keys, confidences);
    match found {
        None => refused(11),
        Some(l) => {
            if bytes.len() < card_size(l, ends.len()) {
                return refused(12);
            }
            Written {
                refusal: 0,
                length: write_card(bytes, l, o, ends, keys, confidences),
            }
        }
    }
}
