// What the medians of all loud frames tell: the chroma of the whole track, its key and the confidence in it.
ghost use Rattle.std.specs.Prelude.{◌≡◌, ◌≤◌, length};
ghost use Rattle.verdicts.specs.Verdict.{faint, tuned_of, verdict_of};

use chroma::shift::retune_chroma;
use chroma::tuning::estimate_tuning;
use key_choice::classify::{classify_key, key_confidence};
use keys::Key;
use numbers::twelve::sum_of_twelve;
use whitening::levels::normalize_chroma;

// The track's chroma, whether it has no shape, its key and the confidence in it.
#[derive(Clone, Copy)]
pub struct Verdict {
    pub key: Key,
    pub confidence: f32,
    pub shapeless: bool,
    pub chroma: [f32; 12],
}

// Whether the medians sum to at most 2^-23.
pub fn is_faint(medians: &[f32; 12]) -> bool
    ensures { result ≡ faint medians.now }
{
    sum_of_twelve(medians) <= 0.00000011920929
}

// The medians, shifted by the tuning of all frames and normalised.
fn tune_medians(medians: &[f32; 12], values: &[[f32; 12]], count: usize) -> [f32; 12]
    requires { count ≤ length values.now }
    ensures { result ≡ tuned_of medians.now values.now count }
{
    let offset = estimate_tuning(&values[..count]);
    let tuned = retune_chroma(medians, offset);
    normalize_chroma(&tuned)
}

// The key that the tuned medians tell.
pub fn judge_medians(medians: &[f32; 12], values: &[[f32; 12]], count: usize) -> Verdict
    requires { count ≤ length values.now }
    ensures { result ≡ verdict_of medians.now values.now count }
{
    let chroma = tune_medians(medians, values, count);
    let told = classify_key(&chroma);
    let key = told.key;
    Verdict {
        key,
        confidence: key_confidence(told.best, told.second),
        shapeless: told.shapeless,
        chroma,
    }
}
