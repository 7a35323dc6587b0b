// The checks of a call, in the table's order.
#![tactic(auto)]

ghost use Rattle.std.specs.Prelude.{◌≡◌, ◌<◌, ◌≤◌, min, ◌||◌, ltb, length};
ghost use Rattle.calls.specs.Call.{positions_of};
ghost use Rattle.calls.specs.Lent.{call_in};
ghost use Rattle.checks.specs.Checks.{all_finite, nothing_to_do, checked};

use calls::sheet::LentCall;
use calls::{LONGEST_TRACK, Settings};
use numbers::floats::is_finite;
use refusal::Refusal;
use sheets::{matches, well_formed};

pub mod refusal;

// The five f32 settings are finite.
fn all_finite(s: Settings) -> bool
    ensures { result ≡ all_finite s }
{
    is_finite(s.local_window_seconds)
        & is_finite(s.local_hop_seconds)
        & is_finite(s.alternate_coverage_threshold)
        & is_finite(s.segment_confidence_threshold)
        & is_finite(s.minimum_segment_seconds)
}

// The Rust's reasons for an empty answer.
fn nothing_to_do(s: Settings, count: usize) -> bool
    ensures { result ≡ nothing_to_do s count }
{
    (s.rate == 0)
        | (s.frame_size < 32)
        | (s.hop_size == 0)
        | (count < s.frame_size)
        | (s.maximum_midi_note < s.minimum_midi_note)
        | !(0.0 < s.local_window_seconds)
        | !(0.0 < s.local_hop_seconds)
}

// The smallest of three.
pub fn fewest(a: usize, b: usize, c: usize) -> usize
    ensures { result ≡ min a (min b c) }
{
    a.min(b.min(c))
}

// How many frames there are.
fn frame_positions(s: Settings, count: usize) -> usize
    requires { (0 < s.hop_size) × (0 < s.frame_size) × (s.frame_size ≤ count) }
    ensures { result ≡ positions_of s count }
{
    (count - s.frame_size) / s.hop_size + 1
}

// What the table says of a call with room for so many frames: why it is refused, nothing where the Rust's answer is
// empty, or as many frame positions to go through. The call is hasty where row 5 applies; few says that other rows are
// too few.
pub fn check(call: LentCall, hasty: bool, few: bool, room: usize) -> Result<Option<usize>, Refusal>
    ensures { result ≡ checked (call_in call.entry) hasty (few || ltb room (positions_of call.entry.settings (length call.entry.samples.now))) }
{
    let settings = call.settings;
    let count = call.samples.len();
    if settings.rate > 192_000 {
        return Err(Refusal::RateTooHigh);
    }
    if (settings.frame_size > 65_536) | (settings.hop_size > 1_048_576) {
        return Err(Refusal::FrameOrHopTooLarge);
    }
    if !all_finite(settings) {
        return Err(Refusal::SettingNotFinite);
    }
    if settings.engine > 1 {
        return Err(Refusal::EngineUnknown);
    }
    if nothing_to_do(settings, count) {
        return Ok(None);
    }
    if count > LONGEST_TRACK * (settings.rate as usize) {
        return Err(Refusal::TrackTooLong);
    }
    if hasty {
        return Err(Refusal::HopTooShort);
    }
    if !matches(settings, call.sheet.head) {
        return Err(Refusal::SheetOfAnotherCall);
    }
    if !well_formed(call.sheet) {
        return Err(Refusal::SheetNotWellFormed);
    }
    let positions = frame_positions(settings, count);
    if few | (room < positions) {
        return Err(Refusal::RoomTooSmall);
    }
    Ok(Some(positions))
}
