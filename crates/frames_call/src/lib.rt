// The call "frames only", whole.
#![tactic(auto)]

ghost use Rattle.std.specs.Prelude.{◌≡◌};
ghost use Rattle.calls.specs.Lent.{call_in, rows_in, SameFrameRows};
ghost use Rattle.frames_call.specs.FramesOnly.{frames_outcome, frames_only};
ghost use Rattle.frames_call.specs.inside.Answered.{answered};
ghost use Rattle.frames_call.specs.declared.Stop.TheVariants.{Refused, Broken};

use calls::rows::FrameRows;
use calls::sheet::LentCall;
use checks::check;
use checks::refusal::Refusal;
use frames::run::{NotFinite, fill_rows};

// The refusal's number, or 0; the frame position that is not finite, or 0; how many rows were written.
#[repr(C)]
#[derive(Clone, Copy)]
pub struct FramesResult {
    pub refusal: u32,
    pub position: u64,
    pub count: u64,
}

// Why a call ends before its last frame position.
#[derive(Clone, Copy, Debug, PartialEq, Eq)]
enum Stop {
    Refused(Refusal),
    Broken(NotFinite),
}

impl From<Refusal> for Stop {
    ghost from_gives = { λ refusal stop. stop ≡ Refused refusal };

    fn from(refusal: Refusal) -> Stop {
        Stop::Refused(refusal)
    }
}

impl From<NotFinite> for Stop {
    ghost from_gives = { λ broken stop. stop ≡ Broken broken };

    fn from(broken: NotFinite) -> Stop {
        Stop::Broken(broken)
    }
}

// Writes the loud frames into the lent rows, and says how many.
fn write_frames(call: LentCall, rows: &mut FrameRows) -> Result<usize, Stop>
    ensures same { SameFrameRows rows.old rows.new }
    ensures outcome { frames_outcome (answered result) (rows_in rows.new) ≡ frames_only (call_in call.entry) (rows_in rows.old) }
{
    match check(call, false, false, rows.room())? {
        Some(positions) => Ok(fill_rows(call, positions, rows)?),
        None => Ok(0),
    }
}

// Writes the loud frames of a track from the front of the lent rows: centre in seconds, chroma, energy.
// Refusals 1 to 4, 6 to 8 and 13 by the table; 9 a loud frame that is not finite, with its position.
pub fn frames_only(call: LentCall, rows: &mut FrameRows) -> FramesResult
    ensures same { SameFrameRows rows.old rows.new }
    ensures outcome { frames_outcome result (rows_in rows.new) ≡ frames_only (call_in call.entry) (rows_in rows.old) }
{
    match write_frames(call, rows) {
        Ok(count) => FramesResult {
            refusal: 0,
            position: 0,
            count: count as u64,
        },
        Err(Stop::Refused(refusal)) => FramesResult {
            refusal: u32::from(refusal),
            position: 0,
            count: 0,
        },
        Err(Stop::Broken(at)) => FramesResult {
            refusal: 9,
            position: at.position as u64,
            count: at.count as u64,
        },
    }
}
