// The form of a key card: how many bytes its fields take, and lists of segments that belong together.
#![tactic(auto)]

pub mod said;

ghost use Rattle.std.specs.Prelude.{◌≡◌, ◌^◌, ◌<◌};
ghost use Rattle.card.specs.Layout.{LayoutFits};
ghost use Rattle.card_form.specs.Form.{card_size};
ghost use Rattle.card_form.specs.Rows.{unequal};

use card::layout::Layout;

// How many bytes a card of `count` segments has.
pub fn card_size(l: Layout, count: usize) -> usize
    requires { LayoutFits l × (count < 2 ^ 32) }
    ensures { result ≡ card_size l count }
{
    (39 + l.count + count * (l.end + 5 + 10) + 7) / 8
}

// Whether lists of these lengths are not equally long.
pub fn unequal_lengths(starts: usize, ends: usize, keys: usize, confidences: usize) -> bool
    ensures { result ≡ unequal starts ends keys confidences }
{
    !(starts == ends) | !(keys == ends) | !(confidences == ends)
}
