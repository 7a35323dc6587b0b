// The card of packed numbers, bit after bit into lent bytes.
ghost use Rattle.std.specs.Prelude.{◌≡◌, length};
ghost use Rattle.laws.specs.Front.{front};
ghost use Rattle.card_form.specs.Form.{card_size, card_bytes};
ghost use Rattle.card_form.specs.Rows.{row_at};
ghost use Rattle.card_pen.specs.inside.Putting.{CanWrite};
ghost use Rattle.packed_cards.specs.Packed.{packed_meaning};

use crate::rows::LentRows;
use card::layout::{Header, Layout};
use card_pen::whole;

// Writes the card from the front of `bytes` and returns its length. Bytes beyond it stay.
pub fn write_card(
    bytes: &mut [u8],
    l: Layout,
    h: Header,
    ends: &[u32],
    keys: &[u8],
    confidences: &[u16],
) -> usize
    requires { CanWrite bytes.old l h (row_at ends.now keys.now confidences.now) (length ends.now) × (length keys.now ≡ length ends.now) × (length confidences.now ≡ length ends.now) }
    ensures { (result ≡ card_size l (length ends.now)) × (bytes.new ≡ front (card_bytes l (packed_meaning h ends.now keys.now confidences.now)) bytes.old) }
{
    let said = LentRows {
        header: h,
        ends,
        keys,
        confidences,
    };
    whole::write_card(bytes, l, &said)
}
