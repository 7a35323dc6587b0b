// The call "frames only".
ghost use Rattle.std.specs.Prelude.{◌≡◌};
ghost use Rattle.calls.specs.Call.{given};
ghost use Rattle.calls.specs.Rows.{lent_rows};
ghost use Rattle.frames_call.specs.FramesOnly.{frames_outcome, frames_only};

use calls::rows::FrameRows;
use calls::sheet::{LentCall, LentSheet};
use calls::{Settings, SheetHead};
use frames_call::{FramesResult, frames_only};

// Writes the loud frames of a track from the front of the lent rows: centre in seconds, chroma, energy.
// Refusals 1 to 4, 6 to 8 and 13 by the table; 9 a loud frame that is not finite, with its position.
#[unsafe(no_mangle)]
pub extern "C" fn ulyptesh_frames<'a, 'b>(
    settings: Settings,
    head: SheetHead,
    samples: &'a [f32],
    window: &'a [f32],
    coefficients: &'a [f32],
    weights: &'a [f32],
    lengths: &'a [u32],
    qcoefficients: &'a [f32],
    qwindows: &'a [f32],
    centres: &'b mut [f64],
    values: &'b mut [[f32; 12]],
    energies: &'b mut [f32],
) -> FramesResult
    ensures { frames_outcome result (lent_rows centres.new values.new energies.new) ≡ frames_only (given settings head samples.now window.now coefficients.now weights.now lengths.now qcoefficients.now qwindows.now) (lent_rows centres.old values.old energies.old) }
{
    let sheet = LentSheet {
        head,
        window,
        goertzel_coefficients: coefficients,
        goertzel_weights: weights,
        constant_q_lengths: lengths,
        constant_q_coefficients: qcoefficients,
        constant_q_windows: qwindows,
    };
    let call = LentCall {
        settings,
        samples,
        sheet,
    };
    let mut rows = FrameRows {
        centres,
        values,
        energies,
    };
    frames_only(call, &mut rows)
}
