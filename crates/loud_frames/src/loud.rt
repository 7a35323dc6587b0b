// From the loud frames in their rows to the answer.
ghost use Rattle.std.specs.Prelude.{◌≡◌};
ghost use Rattle.rooms.specs.Lent.{lent_all};
ghost use Rattle.calls.specs.Rows.{lent_rows};
ghost use Rattle.loud_frames.specs.Loud.{analyse_outcome, loud_analysed};
ghost use Rattle.loud_frames.specs.inside.Rows.{frames_in, Stocked};

use answers::answer::{AnalyseResult, keyless};
use calls::Settings;
use onsets::weighted::weighted_medians;
use reports::report::report_track;
use verdicts::verdict::{is_faint, judge_medians};

// The empty analysis where no frame is loud or the medians are faint; else what the medians tell.
pub fn analyse_frames(
    settings: Settings,
    samples: usize,
    frames: usize,
    centres: &[f64],
    values: &[[f32; 12]],
    energies: &[f32],
    work: &mut [f32],
    middles: &mut [f64],
    numbers: &mut [u8],
    certainties: &mut [f32],
    shapeless: &mut [u8],
    starts: &mut [f64],
    ends: &mut [f64],
    keys: &mut [u8],
    confidences: &mut [f32],
    counts: &mut [u32],
) -> AnalyseResult
    requires { Stocked settings samples frames (lent_all centres.now values.now energies.now work.old middles.old numbers.old certainties.old shapeless.old starts.old ends.old keys.old confidences.old counts.old) }
    ensures { analyse_outcome result (lent_all centres.now values.now energies.now work.new middles.new numbers.new certainties.new shapeless.new starts.new ends.new keys.new confidences.new counts.new) ≡ loud_analysed settings samples (frames_in (lent_rows centres.now values.now energies.now) frames) (lent_all centres.now values.now energies.now work.old middles.old numbers.old certainties.old shapeless.old starts.old ends.old keys.old confidences.old counts.old) }
{
    if frames == 0 {
        return keyless(0, 0, 0);
    }
    let medians = weighted_medians(values, energies, frames, work);
    if is_faint(&medians) {
        return keyless(0, 0, frames);
    }
    let verdict = judge_medians(&medians, values, frames);
    report_track(
        settings,
        samples,
        verdict,
        frames,
        centres,
        values,
        middles,
        numbers,
        certainties,
        shapeless,
        starts,
        ends,
        keys,
        confidences,
        counts,
    )
}
