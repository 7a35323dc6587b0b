// The loud frames of one window, summed.
ghost use Rattle.std.specs.Prelude.{◌≡◌, ◌+◌, ◌^◌, ◌<◌, ◌≤◌, length};
ghost use Rattle.gathering.specs.Gather.{heard, with_frame, gathered_of, gathered_after, in_window};
ghost use Rattle.gathering.specs.inside.Ahead.{Known};
ghost use Rattle.gathering.specs.inside.Lent.{frames_lent};

use crate::ahead::{Ahead, find_stop};
use crate::frames::LentFrames;
use numbers::twelve::add_twelve;

// The sums of the twelve values, and how many frames are in them.
#[derive(Clone, Copy)]
pub struct Gathered {
    pub chroma: [f32; 12],
    pub frames: usize,
}

// A frame counts where start <= centre < end.
fn is_within(start: f64, end: f64, centre: f64) -> bool
    ensures { result ≡ in_window start end centre }
{
    (start <= centre) & (centre < end)
}

// One frame more.
fn with_frame(gathered: Gathered, values: [f32; 12]) -> Gathered
    requires { gathered.frames + 1 < 2 ^ 64 }
    ensures { result ≡ with_frame values gathered }
{
    let frames = gathered.frames + 1;
    let sums = gathered.chroma;
    let chroma = add_twelve(&sums, &values);
    Gathered { chroma, frames }
}

// The chromas of the frames from `from` on and before `stop` with a centre within, summed in order from +0.
fn gather_frames(start: f64, end: f64, from: usize, stop: usize, frames: LentFrames) -> Gathered
    requires { (stop ≤ length frames.centres.now) × (stop ≤ length frames.values.now) }
    ensures { result ≡ gathered_after (heard stop frames.entry.centres.now frames.entry.values.now) from start end }
{
    let mut gathered = Gathered {
        chroma: [0.0; 12],
        frames: 0,
    };
    for i in from..stop {
        if is_within(start, end, frames.centres[i]) {
            gathered = with_frame(gathered, frames.values[i]);
        }
    }
    gathered
}

// What a window gathers of all frames: those left behind, and those from the stop on, are not within.
pub fn gather_window(start: f64, end: f64, ahead: Ahead, frames: LentFrames) -> Gathered
    requires { (ahead.frames ≤ length frames.centres.now) × (ahead.frames ≤ length frames.values.now) × Known (frames_lent frames) ahead start }
    ensures { result ≡ gathered_of (frames_lent frames.entry) start end }
{
    let stop = find_stop(ahead, end, frames.centres);
    gather_frames(start, end, ahead.from, stop, frames)
}
