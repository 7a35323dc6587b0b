// A whole analysis: the checks decide, the loud frames go into their rows, and the answer is made of them.
ghost use Rattle.std.specs.Prelude.{◌≡◌};
ghost use Rattle.calls.specs.Call.{given};
ghost use Rattle.rooms.specs.Lent.{lent_all};
ghost use Rattle.loud_frames.specs.Loud.{analyse_outcome};
ghost use Rattle.analysis.specs.Analyse.{analysed};

use answers::answer::{AnalyseResult, keyless};
use calls::sheet::{LentCall, LentSheet};
use calls::{Settings, SheetHead};
use checks::{check, fewest};
use positions::run::analyse_positions;
use rooms::{frame_room, is_hasty, rows_lack};
use timeline::estimate::estimate_room;
use timeline::segment::segment_room;

// The Rust's `analyze` without its reranker.
pub fn analyse<'a>(
    settings: Settings,
    head: SheetHead,
    samples: &'a [f32],
    window: &'a [f32],
    coefficients: &'a [f32],
    weights: &'a [f32],
    lengths: &'a [u32],
    qcoefficients: &'a [f32],
    qwindows: &'a [f32],
    centres: &mut [f64],
    values: &mut [[f32; 12]],
    energies: &mut [f32],
    work: &mut [f32],
    middles: &mut [f64],
    numbers: &mut [u8],
    certainties: &mut [f32],
    shapeless: &mut [u8],
    starts: &mut [f64],
    ends: &mut [f64],
    keys: &mut [u8],
    confidences: &mut [f32],
    counts: &mut [u32],
) -> AnalyseResult
    ensures { analyse_outcome result (lent_all centres.new values.new energies.new work.new middles.new numbers.new certainties.new shapeless.new starts.new ends.new keys.new confidences.new counts.new) ≡ analysed (given settings head samples.now window.now coefficients.now weights.now lengths.now qcoefficients.now qwindows.now) (lent_all centres.old values.old energies.old work.old middles.old numbers.old certainties.old shapeless.old starts.old ends.old keys.old confidences.old counts.old) }
{
    let rows = fewest(centres.len(), values.len(), energies.len());
    let estimates = estimate_room(middles, numbers, certainties, shapeless);
    let segments = segment_room(starts, ends, keys, confidences, counts);
    let few = rows_lack(settings, samples.len(), estimates, segments);
    let room = frame_room(rows, work.len());
    let sheet = LentSheet {
        head,
        window,
        goertzel_coefficients: coefficients,
        goertzel_weights: weights,
        constant_q_lengths: lengths,
        constant_q_coefficients: qcoefficients,
        constant_q_windows: qwindows,
    };
    let call = LentCall {
        settings,
        samples,
        sheet,
    };
    match check(call, is_hasty(settings), few, room) {
        Err(refusal) => keyless(u32::from(refusal), 0, 0),
        Ok(None) => keyless(0, 0, 0),
        Ok(Some(positions)) => analyse_positions(
            settings,
            head,
            samples,
            window,
            coefficients,
            weights,
            lengths,
            qcoefficients,
            qwindows,
            positions,
            centres,
            values,
            energies,
            work,
            middles,
            numbers,
            certainties,
            shapeless,
            starts,
            ends,
            keys,
            confidences,
            counts,
        ),
    }
}
