// The call "analyse".
ghost use Rattle.calls.specs.Call.{given};
ghost use Rattle.rooms.specs.Lent.{lent_all};
ghost use Rattle.loud_frames.specs.Loud.{analyse_outcome};
ghost use Rattle.ulyptesh.specs.Analysis.{Promised};

use analysis::analyse::analyse;
use answers::answer::AnalyseResult;
use calls::{Settings, SheetHead};

// Analyses a track: frames, estimates and segments go into the lent rows, and the answer tells key and counts.
#[unsafe(no_mangle)]
pub extern "C" fn ulyptesh_analyse(
    settings: Settings,
    head: SheetHead,
    samples: &[f32],
    window: &[f32],
    coefficients: &[f32],
    weights: &[f32],
    lengths: &[u32],
    qcoefficients: &[f32],
    qwindows: &[f32],
    centres: &mut [f64],
    values: &mut [[f32; 12]],
    energies: &mut [f32],
    work: &mut [f32],
    middles: &mut [f64],
    numbers: &mut [u8],
    certainties: &mut [f32],
    shapeless: &mut [u8],
    starts: &mut [f64],
    ends: &mut [f64],
    keys: &mut [u8],
    confidences: &mut [f32],
    counts: &mut [u32],
) -> AnalyseResult
    ensures { Promised (given settings head samples.now window.now coefficients.now weights.now lengths.now qcoefficients.now qwindows.now) (lent_all centres.old values.old energies.old work.old middles.old numbers.old certainties.old shapeless.old starts.old ends.old keys.old confidences.old counts.old) (analyse_outcome result (lent_all centres.new values.new energies.new work.new middles.new numbers.new certainties.new shapeless.new starts.new ends.new keys.new confidences.new counts.new)) }
{
    analyse(
        settings,
        head,
        samples,
        window,
        coefficients,
        weights,
        lengths,
        qcoefficients,
        qwindows,
        centres,
        values,
        energies,
        work,
        middles,
        numbers,
        certainties,
        shapeless,
        starts,
        ends,
        keys,
        confidences,
        counts,
    )
}
