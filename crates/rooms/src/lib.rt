// What an analysis is lent, and whether it suffices: its room, for row 8 of the check table, and its haste, for row 5.
#![tactic(auto)]

ghost use Rattle.std.specs.Prelude.{◌≡◌, ◌||◌, min, ltb};
ghost use Rattle.windows.specs.Span.{span_of, rows_asked};
ghost use Rattle.rooms.specs.Room.{hasty};

use calls::Settings;
use numbers::counts::fewer;
use windows::span::{rows_asked, span_of};

// Whether the local hop is below half a second.
pub fn is_hasty(settings: Settings) -> bool
    ensures { result ≡ hasty settings }
{
    settings.local_hop_seconds < 0.5
}

// Whether estimates or segments have fewer rows than the windows ask for.
pub fn rows_lack(settings: Settings, samples: usize, estimates: usize, segments: usize) -> bool
    ensures { result ≡ (ltb estimates (rows_asked (span_of settings samples)) || ltb segments (rows_asked (span_of settings samples))) }
{
    let asked = rows_asked(span_of(settings, samples));
    (estimates < asked) | (segments < asked)
}

// The frames that there is room for: each takes a row and a work number.
pub fn frame_room(rows: usize, work: usize) -> usize
    ensures { result ≡ min rows work }
{
    fewer(rows, work)
}
