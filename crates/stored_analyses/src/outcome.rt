// Whether an outcome, an answer and all that is left in the rows, is the one that is stored.
ghost use Rattle.std.specs.Prelude.{◌≡◌, ◌+◌, ◌≤◌, length};
ghost use Rattle.calls.specs.Rows.{lent_rows};
ghost use Rattle.timeline.specs.Estimates.{lent_estimates};
ghost use Rattle.timeline.specs.Segments.{lent_segments};
ghost use Rattle.rooms.specs.Lent.{lent_all};
ghost use Rattle.loud_frames.specs.Loud.{analyse_outcome};
ghost use Rattle.stored_analyses.specs.Outcome.{Sized, same_answer, same_frames, same_estimates, same_segments, same_outcome};

use crate::rows::{Stored, entries_agree};
use answers::answer::AnalyseResult;

// Whether this is the answer from `at` on.
fn answer_agrees(bytes: &[u8], at: usize, answer: AnalyseResult) -> bool
    requires { at + 92 ≤ length bytes.now }
    ensures { result ≡ same_answer bytes.now at answer }
{
    let numbers = [
        u64::from(answer.refusal),
        answer.position,
        u64::from(answer.key),
        u64::from(answer.dsp_key),
        u64::from(answer.alternate),
        answer.frames,
        answer.estimates,
        answer.segments,
        u64::from(answer.shapeless),
    ];
    let values = [answer.coverage, answer.confidence];
    let chroma = answer.chroma;
    entries_agree(bytes, at, &numbers)
        & entries_agree(bytes, at + 36, &values)
        & chroma.agrees(bytes, at + 44)
}

// Whether these are the frame rows and work numbers from `at` on.
fn frames_agree(
    bytes: &[u8],
    at: usize,
    centres: &[f64],
    values: &[[f32; 12]],
    energies: &[f32],
    work: &[f32],
) -> bool
    requires { (at + 512 ≤ length bytes.now) × (length centres.now ≡ 8) × (length values.now ≡ 8) × (length energies.now ≡ 8) × (length work.now ≡ 8) }
    ensures { result ≡ same_frames bytes.now at (lent_rows centres.now values.now energies.now) work.now }
{
    entries_agree(bytes, at, centres)
        & entries_agree(bytes, at + 64, values)
        & entries_agree(bytes, at + 448, energies)
        & entries_agree(bytes, at + 480, work)
}

// Whether these are the estimates from `at` on.
fn estimates_agree(
    bytes: &[u8],
    at: usize,
    middles: &[f64],
    numbers: &[u8],
    certainties: &[f32],
    shapeless: &[u8],
) -> bool
    requires { (at + 100 ≤ length bytes.now) × (length middles.now ≡ 5) × (length numbers.now ≡ 5) × (length certainties.now ≡ 5) × (length shapeless.now ≡ 5) }
    ensures { result ≡ same_estimates bytes.now at (lent_estimates middles.now numbers.now certainties.now shapeless.now) }
{
    entries_agree(bytes, at, middles)
        & entries_agree(bytes, at + 40, numbers)
        & entries_agree(bytes, at + 60, certainties)
        & entries_agree(bytes, at + 80, shapeless)
}

// Whether these are the segments from `at` on.
fn segments_agree(
    bytes: &[u8],
    at: usize,
    starts: &[f64],
    ends: &[f64],
    keys: &[u8],
    confidences: &[f32],
    counts: &[u32],
) -> bool
    requires { (at + 140 ≤ length bytes.now) × (length starts.now ≡ 5) × (length ends.now ≡ 5) × (length keys.now ≡ 5) × (length confidences.now ≡ 5) × (length counts.now ≡ 5) }
    ensures { result ≡ same_segments bytes.now at (lent_segments starts.now ends.now keys.now confidences.now counts.now) }
{
    entries_agree(bytes, at, starts)
        & entries_agree(bytes, at + 40, ends)
        & entries_agree(bytes, at + 80, keys)
        & entries_agree(bytes, at + 100, confidences)
        & entries_agree(bytes, at + 120, counts)
}

// Whether this is what the record says that a call answers and leaves.
pub fn outcome_agrees(
    bytes: &[u8],
    start: usize,
    answer: AnalyseResult,
    centres: &[f64],
    values: &[[f32; 12]],
    energies: &[f32],
    work: &[f32],
    middles: &[f64],
    numbers: &[u8],
    certainties: &[f32],
    shapeless: &[u8],
    starts: &[f64],
    ends: &[f64],
    keys: &[u8],
    confidences: &[f32],
    counts: &[u32],
) -> bool
    requires { (start + 2424 ≤ length bytes.now) × Sized (lent_all centres.now values.now energies.now work.now middles.now numbers.now certainties.now shapeless.now starts.now ends.now keys.now confidences.now counts.now) }
    ensures { result ≡ same_outcome bytes.now start (analyse_outcome answer (lent_all centres.now values.now energies.now work.now middles.now numbers.now certainties.now shapeless.now starts.now ends.now keys.now confidences.now counts.now)) }
{
    answer_agrees(bytes, start + 1580, answer)
        & frames_agree(bytes, start + 1672, centres, values, energies, work)
        & estimates_agree(
            bytes,
            start + 2184,
            middles,
            numbers,
            certainties,
            shapeless,
        )
        & segments_agree(bytes, start + 2284, starts, ends, keys, confidences, counts)
}
