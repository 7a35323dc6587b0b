// The calls on key cards: write one from an analysis or from packed numbers, and read one.
ghost use Rattle.std.specs.Prelude.{◌≡◌};
ghost use Rattle.card_judge.specs.Analysed.{analysis};
ghost use Rattle.written.specs.Outcome.{bytes_outcome};
ghost use Rattle.card_call.specs.Cards.{overall, card_call};
ghost use Rattle.card_form.specs.Rows.{lent_card_rows};
ghost use Rattle.packed_call.specs.PackedCards.{header_from, packed_call};
ghost use Rattle.read_call.specs.Reads.{read_outcome, read_call};

use card_call::write_analysed_card;
use packed_call::write_packed_card;
use read_call::{CardRead, read_card};
use written::Written;

// Writes the key card of an analysis from the front of `bytes`: keys by number, 24 for a missing one,
// and segments in four slices. Refusals: 11 a card rule broken or slices of unequal length, 12 too few bytes.
#[unsafe(no_mangle)]
pub extern "C" fn ulyptesh_write_card(
    key: u32,
    dsp: u32,
    alternate: u32,
    coverage: f32,
    confidence: f32,
    starts: &[f64],
    ends: &[f64],
    keys: &[u8],
    confidences: &[f32],
    bytes: &mut [u8],
) -> Written
    ensures { bytes_outcome result bytes.new ≡ card_call (analysis (overall key dsp alternate coverage confidence) starts.now ends.now keys.now confidences.now) bytes.old }
{
    write_analysed_card(
        key,
        dsp,
        alternate,
        coverage,
        confidence,
        starts,
        ends,
        keys,
        confidences,
        bytes,
    )
}

// Writes the key card of packed numbers, as reading gives them, from the front of `bytes`. Refusals: 11 a card rule
// broken or slices of unequal length, 12 too few bytes.
#[unsafe(no_mangle)]
pub extern "C" fn ulyptesh_write_packed_card(
    key: u32,
    dsp: u32,
    alternate: u32,
    coverage: u32,
    confidence: u32,
    starts: &[u32],
    ends: &[u32],
    keys: &[u8],
    confidences: &[u16],
    bytes: &mut [u8],
) -> Written
    ensures { bytes_outcome result bytes.new ≡ packed_call (header_from key dsp alternate coverage confidence) (lent_card_rows starts.now ends.now keys.now confidences.now) bytes.old }
{
    write_packed_card(
        key,
        dsp,
        alternate,
        coverage,
        confidence,
        starts,
        ends,
        keys,
        confidences,
        bytes,
    )
}

// Reads a key card: segments in milliseconds, keys by number and thousandths from the front of the rows; the answer
// tells the rest. Refusals: 20 too short or of another length than its count gives, 21 a layout that is not known,
// 22 a card rule broken or a filler bit set, 23 layout 2 for what layout 1 holds, 24 fewer rows than segments.
#[unsafe(no_mangle)]
pub extern "C" fn ulyptesh_read_card(
    bytes: &[u8],
    starts: &mut [u32],
    ends: &mut [u32],
    keys: &mut [u8],
    confidences: &mut [u16],
) -> CardRead
    ensures { read_outcome result (lent_card_rows starts.new ends.new keys.new confidences.new) ≡ read_call bytes.now (lent_card_rows starts.old ends.old keys.old confidences.old) }
{
    read_card(bytes, starts, ends, keys, confidences)
}
