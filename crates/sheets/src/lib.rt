// The table sheet: whether it was made for this call, and whether it is well formed.
#![tactic(auto)]

ghost use Rattle.std.specs.Prelude.{◌≡◌, ◌≤◌, length};
ghost use Rattle.std.specs.Float.{nan};
ghost use Rattle.laws.specs.Every.{every_entry};
ghost use Rattle.calls.specs.Lent.{sheet_in};
ghost use Rattle.sheets.specs.Sheet.{matches_call, notes_in, from_to, is_weight, is_length, joined_length, lists_fit, well_formed};

use calls::sheet::LentSheet;
use calls::{Settings, SheetHead};
use numbers::floats::is_finite;

// The sheet was made for this call's rate, notes and frame size.
pub fn matches(settings: Settings, head: SheetHead) -> bool
    ensures { result ≡ matches_call settings head }
{
    (head.rate == settings.rate)
        & (head.minimum_midi_note == settings.minimum_midi_note)
        & (head.maximum_midi_note == settings.maximum_midi_note)
        & (head.frame_size == settings.frame_size)
}

// How many notes there are from the lowest to the highest.
fn notes(head: SheetHead) -> usize
    ensures { (result ≡ notes_in head) × (result ≤ 256) }
{
    let end = usize::from(head.maximum_midi_note) + 1;
    end.saturating_sub(usize::from(head.minimum_midi_note))
}

// Every value lies from low to high. A NaN lies nowhere.
fn all_from_to(values: &[f32], low: f32, high: f32) -> bool
    ensures { result ≡ every_entry (from_to low high) nan values.now }
{
    values
        .iter()
        .fold(true, |good, x| good & ((low <= *x) & (*x <= high)))
}

// Every weight is finite and above 0.
fn all_weights(weights: &[f32]) -> bool
    ensures { result ≡ every_entry is_weight nan weights.now }
{
    weights
        .iter()
        .fold(true, |good, x| good & (is_finite(*x) & (0.0 < *x)))
}

// Every length is from 4 to the rate.
fn all_lengths(lengths: &[u32], rate: u32) -> bool
    ensures { result ≡ every_entry (is_length rate) 0 lengths.now }
{
    lengths
        .iter()
        .fold(true, |good, n| good & ((4 <= *n) & (*n <= rate)))
}

// How long the windows of all rows are together.
pub fn joined_length(lengths: &[u32]) -> usize
    requires { length lengths.now ≤ 256 }
    ensures { result ≡ joined_length lengths.now (length lengths.now) }
{
    lengths.iter().map(|length| *length as usize).sum()
}

// The lists are as long as the head and each other allow.
fn lists_fit(sheet: LentSheet) -> bool
    ensures { result ≡ lists_fit (sheet_in sheet.entry) }
{
    let most = notes(sheet.head);
    (sheet.window.len() == sheet.head.frame_size)
        & (sheet.goertzel_coefficients.len() == sheet.goertzel_weights.len())
        & (sheet.constant_q_lengths.len() == sheet.constant_q_coefficients.len())
        & (sheet.goertzel_coefficients.len() <= most)
        & (sheet.constant_q_lengths.len() <= most)
}

// The sheet is well formed.
pub fn well_formed(sheet: LentSheet) -> bool
    ensures { result ≡ well_formed (sheet_in sheet.entry) }
{
    if !lists_fit(sheet) {
        return false;
    }
    all_lengths(sheet.constant_q_lengths, sheet.head.rate)
        & (sheet.constant_q_windows.len() == joined_length(sheet.constant_q_lengths))
        & all_from_to(sheet.goertzel_coefficients, -2.0, 2.0)
        & all_from_to(sheet.constant_q_coefficients, -2.0, 2.0)
        & all_weights(sheet.goertzel_weights)
        & all_from_to(sheet.window, 0.0, 1.0)
        & all_from_to(sheet.constant_q_windows, 0.0, 1.0)
}
