// All frame positions in turn, and the analysis of the loud ones where each is finite.
ghost use Rattle.std.specs.Prelude.{◌≡◌};
ghost use Rattle.calls.specs.Call.{given};
ghost use Rattle.rooms.specs.Lent.{lent_all};
ghost use Rattle.loud_frames.specs.Loud.{analyse_outcome};
ghost use Rattle.positions.specs.Positions.{positions_analysed};
ghost use Rattle.positions.specs.inside.Supplied.{Supplied};

use answers::answer::{AnalyseResult, keyless};
use calls::sheet::{LentCall, LentSheet};
use calls::{Settings, SheetHead};
use frames::run::{NotFinite, fill_slices};
use loud_frames::loud::analyse_frames;

// All frame positions in turn, and the analysis of the loud ones where each is finite.
pub fn analyse_positions<'a>(
    settings: Settings,
    head: SheetHead,
    samples: &'a [f32],
    window: &'a [f32],
    coefficients: &'a [f32],
    weights: &'a [f32],
    lengths: &'a [u32],
    qcoefficients: &'a [f32],
    qwindows: &'a [f32],
    positions: usize,
    centres: &mut [f64],
    values: &mut [[f32; 12]],
    energies: &mut [f32],
    work: &mut [f32],
    middles: &mut [f64],
    numbers: &mut [u8],
    certainties: &mut [f32],
    shapeless: &mut [u8],
    starts: &mut [f64],
    ends: &mut [f64],
    keys: &mut [u8],
    confidences: &mut [f32],
    counts: &mut [u32],
) -> AnalyseResult
    requires { Supplied (given settings head samples.now window.now coefficients.now weights.now lengths.now qcoefficients.now qwindows.now) positions (lent_all centres.old values.old energies.old work.old middles.old numbers.old certainties.old shapeless.old starts.old ends.old keys.old confidences.old counts.old) }
    ensures { analyse_outcome result (lent_all centres.new values.new energies.new work.new middles.new numbers.new certainties.new shapeless.new starts.new ends.new keys.new confidences.new counts.new) ≡ positions_analysed (given settings head samples.now window.now coefficients.now weights.now lengths.now qcoefficients.now qwindows.now) positions (lent_all centres.old values.old energies.old work.old middles.old numbers.old certainties.old shapeless.old starts.old ends.old keys.old confidences.old counts.old) }
{
    let sheet = LentSheet {
        head,
        window,
        goertzel_coefficients: coefficients,
        goertzel_weights: weights,
        constant_q_lengths: lengths,
        constant_q_coefficients: qcoefficients,
        constant_q_windows: qwindows,
    };
    let call = LentCall {
        settings,
        samples,
        sheet,
    };
    match fill_slices(call, positions, centres, values, energies) {
        Err(NotFinite { position, count }) => keyless(9, position, count),
        Ok(frames) => analyse_frames(
            settings,
            samples.len(),
            frames,
            centres,
            values,
            energies,
            work,
            middles,
            numbers,
            certainties,
            shapeless,
            starts,
            ends,
            keys,
            confidences,
            counts,
        ),
    }
}
