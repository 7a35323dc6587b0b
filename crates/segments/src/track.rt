// The whole way from the loud frames to the segments: the Rust's `estimate_segments`.
ghost use Rattle.std.specs.Prelude.{◌≡◌};
ghost use Rattle.timeline.specs.inside.Lent.{estimates_lent, segments_lent, SameEstimates, SameSegments};
ghost use Rattle.gathering.specs.inside.Lent.{frames_lent};
ghost use Rattle.segments.specs.inside.Located.{located_in, located_of, Prepared};

use crate::fill::{Track, fill_segments};
use gathering::frames::LentFrames;
use timeline::estimate_rows::LentEstimates;
use timeline::segment_rows::LentSegments;
use windows::run::fill_estimates;
use windows::span::{Span, count_windows};

// How many estimates and segments there are.
#[derive(Clone, Copy)]
pub struct Located {
    pub estimates: usize,
    pub segments: usize,
}

// Estimates go into their rows, and the segments made of them into theirs.
pub fn locate_segments(
    span: Span,
    track: Track,
    frames: LentFrames,
    found: &mut LentEstimates,
    rows: &mut LentSegments,
) -> Located
    requires { Prepared span (frames_lent frames) (estimates_lent found.old) (segments_lent rows.old) }
    ensures same_estimates { SameEstimates found.old found.new }
    ensures same_segments { SameSegments rows.old rows.new }
    ensures located { located_in result (estimates_lent found.new) (segments_lent rows.new) ≡ located_of span track (frames_lent frames.entry) (estimates_lent found.old) (segments_lent rows.old) }
{
    let windows = count_windows(span);
    let estimates = fill_estimates(span, windows, frames, found);
    let segments = fill_segments(track, estimates, found.columns(), rows);
    Located {
        estimates,
        segments,
    }
}
