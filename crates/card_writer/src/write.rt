// The card of an analysis, bit after bit into lent bytes.
ghost use Rattle.std.specs.Prelude.{◌≡◌, length};
ghost use Rattle.laws.specs.Front.{front};
ghost use Rattle.card_form.specs.Form.{card_size, card_bytes};
ghost use Rattle.card_judge.specs.Analysed.{packed_header, packed_at, meaning};
ghost use Rattle.card_pen.specs.inside.Putting.{CanWrite};

use card::layout::Layout;
use card_judge::analysed::{LentAnalysis, Overall};
use card_pen::whole;

// Writes the card from the front of `bytes` and returns its length. Bytes beyond it stay.
pub fn write_card(
    bytes: &mut [u8],
    l: Layout,
    o: Overall,
    ends: &[f64],
    keys: &[u8],
    confidences: &[f32],
) -> usize
    requires { CanWrite bytes.old l (packed_header o) (packed_at ends.now keys.now confidences.now) (length ends.now) × (length keys.now ≡ length ends.now) × (length confidences.now ≡ length ends.now) }
    ensures { (result ≡ card_size l (length ends.now)) × (bytes.new ≡ front (card_bytes l (meaning o ends.now keys.now confidences.now)) bytes.old) }
{
    let said = LentAnalysis {
        overall: o,
        ends,
        keys,
        confidences,
    };
    whole::write_card(bytes, l, &said)
}
