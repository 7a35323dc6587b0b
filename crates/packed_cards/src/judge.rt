// Packed numbers judged by the card rules.
ghost use Rattle.std.specs.Prelude.{◌≡◌, length};
ghost use Rattle.card_form.specs.Rows.{lent_card_rows};
ghost use Rattle.packed_cards.specs.Packed.{first_packed_gap, packed_layout};

use crate::rows::LentRows;
use card::layout::{Header, Layout};
use card_form::said::layout_for;
use card_form::unequal_lengths;

// The first segment that does not start where the one before it ends, or their count.
fn first_gap(starts: &[u32], ends: &[u32]) -> usize
    requires { length starts.now ≡ length ends.now }
    ensures { result ≡ first_packed_gap starts.now ends.now }
{
    let count = ends.len();
    let mut previous = 0;
    for i in 0..count {
        if !(starts[i] == previous) {
            return i;
        }
        previous = ends[i];
    }
    count
}

// The layout that the header and the rows are written in: the first of which they break no rule.
pub fn layout_of(
    h: Header,
    starts: &[u32],
    ends: &[u32],
    keys: &[u8],
    confidences: &[u16],
) -> Option<Layout>
    ensures { result ≡ packed_layout h (lent_card_rows starts.now ends.now keys.now confidences.now) }
{
    let count = ends.len();
    if unequal_lengths(starts.len(), count, keys.len(), confidences.len()) {
        return None;
    }
    if first_gap(starts, ends) < count {
        return None;
    }
    let said = LentRows {
        header: h,
        ends,
        keys,
        confidences,
    };
    layout_for(&said)
}
