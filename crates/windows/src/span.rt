// The time that windows run over, and how many there are.
ghost use Rattle.std.specs.Prelude.{◌≡◌, ◌^◌, ◌<◌};
ghost use Rattle.calls.specs.Call.{longest_track};
ghost use Rattle.windows.specs.Span.{span_of, brief, budget_for, windows_within, windows_of, rows_asked};

use calls::{LONGEST_TRACK, Settings};
use conversions::widen;

// A window's length, the hop to the next one and the track's duration, in seconds.
#[derive(Clone, Copy)]
pub struct Span {
    pub window: f64,
    pub hop: f64,
    pub duration: f64,
}

// The budget for the longest track: two windows a second, and one more.
const BUDGET: usize = 2 * LONGEST_TRACK + 1;

// The span of a track of so many samples.
pub fn span_of(settings: Settings, samples: usize) -> Span
    ensures { result ≡ span_of settings samples }
{
    let count = std::num::nearest_u64_to_f64(samples as u64);
    let rate = std::num::nearest_u64_to_f64(settings.rate as u64);
    Span {
        window: widen(settings.local_window_seconds),
        hop: widen(settings.local_hop_seconds),
        duration: count / rate,
    }
}

// Whether the track is shorter than a window and a hop.
fn is_brief(span: Span) -> bool
    ensures { result ≡ brief span }
{
    span.duration < span.window + span.hop
}

// The passes of the Rust's window loop, as far as the budget goes.
fn passes(span: Span) -> usize
    ensures { result ≡ windows_within (budget_for longest_track) span }
{
    let mut start = 0.0;
    for k in 0..BUDGET {
        if !(start + span.window <= span.duration) {
            return k;
        }
        start += span.hop;
    }
    BUDGET
}

// How many windows the track is cut into: none where it is brief.
pub fn count_windows(span: Span) -> usize
    ensures { result ≡ windows_of span }
{
    if is_brief(span) { 0 } else { passes(span) }
}

// 01's W: how many rows estimates and segments may take, one at least.
pub fn rows_asked(span: Span) -> usize
    ensures { result ≡ rows_asked span }
{
    count_windows(span).max(1)
}
