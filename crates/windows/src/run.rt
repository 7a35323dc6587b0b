// The run over the windows: their estimates go into the lent rows, from the front.
ghost use Rattle.std.specs.Prelude.{◌≡◌, ◌<◌, ◌≤◌, length};
ghost use Rattle.gathering.specs.inside.Ahead.{Known};
ghost use Rattle.gathering.specs.inside.Lent.{frames_lent};
ghost use Rattle.timeline.specs.inside.Lent.{estimates_lent, SameEstimates};
ghost use Rattle.windows.specs.inside.Rows.{window_written, windows_written, wrote, Ready};

use crate::estimate::estimate_of;
use crate::span::Span;
use gathering::ahead::{Ahead, look_ahead, skip_frames};
use gathering::frames::LentFrames;
use gathering::gather::gather_window;
use timeline::estimate_rows::LentEstimates;

// The estimate of the window from `start` goes into place n; returns how many there are then.
fn write_window(
    span: Span,
    start: f64,
    ahead: Ahead,
    frames: LentFrames,
    n: usize,
    rows: &mut LentEstimates,
) -> usize
    requires { (ahead.frames ≤ length frames.centres.now) × (ahead.frames ≤ length frames.values.now) × Known (frames_lent frames) ahead start × (n < length rows.old.centres.now) × (n < length rows.old.keys.now) × (n < length rows.old.confidences.now) × (n < length rows.old.shapeless.now) }
    ensures same_slices { SameEstimates rows.old rows.new }
    ensures written { wrote result (estimates_lent rows.new) ≡ window_written span (frames_lent frames.entry) start n (estimates_lent rows.old) }
{
    let found = gather_window(start, start + span.window, ahead, frames);
    if found.frames == 0 {
        return n;
    }
    let middle = start + span.window / 2.0;
    rows.put(n, estimate_of(middle, found.chroma));
    n + 1
}

// Every window in turn; returns how many estimates there are.
pub fn fill_estimates(
    span: Span,
    windows: usize,
    frames: LentFrames,
    rows: &mut LentEstimates,
) -> usize
    requires { Ready span (frames_lent frames) (estimates_lent rows.old) windows }
    ensures same_slices { SameEstimates rows.old rows.new }
    ensures written { wrote result (estimates_lent rows.new) ≡ windows_written span (frames_lent frames.entry) windows (estimates_lent rows.old) }
{
    let mut ahead = look_ahead(frames.count, frames.centres);
    let mut start = 0.0;
    let mut n = 0;
    for _ in 0..windows {
        ahead = skip_frames(ahead, start, frames.centres);
        n = write_window(span, start, ahead, frames, n, rows);
        start += span.hop;
    }
    n
}
