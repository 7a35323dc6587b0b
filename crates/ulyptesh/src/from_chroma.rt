// The calls on a chroma: the 24 scores, and the key with the highest and the second of them.
ghost use Rattle.std.specs.Prelude.{◌≡◌};
ghost use Rattle.chroma_calls.specs.FromChroma.{scores_outcome, scores_call, key_call};

use chroma_calls::{KeyResult, ScoresResult, key_of_chroma, scores_of_chroma};

// Writes the 24 scores of a chroma by key number from the front of `out`. Refusal 18: a chroma not of
// 12 numbers, or fewer than 24 places.
#[unsafe(no_mangle)]
pub extern "C" fn ulyptesh_scores(chroma: &[f32], out: &mut [f32]) -> ScoresResult
    ensures { scores_outcome result out.new ≡ scores_call chroma.now out.old }
{
    scores_of_chroma(chroma, out)
}

// The key of a chroma, the highest and the second score and the confidence. Refusal 18: a chroma not of
// 12 numbers.
#[unsafe(no_mangle)]
pub extern "C" fn ulyptesh_key(chroma: &[f32]) -> KeyResult
    ensures { result ≡ key_call chroma.now }
{
    key_of_chroma(chroma)
}
