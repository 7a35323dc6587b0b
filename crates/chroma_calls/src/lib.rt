// The calls on a chroma, whole: the 24 scores, and the key with the highest and the second of them.
#![tactic(auto)]

ghost use Rattle.std.specs.Prelude.{◌≡◌, ◌≤◌, length};
ghost use Rattle.laws.specs.Front.{front};
ghost use Rattle.chroma_calls.specs.FromChroma.{scores_outcome, scores_call, judged, key_call};

use key_choice::classify::{Classified, classify_key, key_confidence};
use numbers::twelve::twelve_values;
use scores::scoring::score_keys;

// The refusal's number, or 0; 1 where the chroma has no shape, else 0.
#[repr(C)]
#[derive(Clone, Copy)]
pub struct ScoresResult {
    pub refusal: u32,
    pub shapeless: u32,
}

// The refusal's number, or 0; the key's number, or 24; its score, the second one's, and the confidence; 1 where the
// chroma has no shape, else 0.
#[repr(C)]
#[derive(Clone, Copy)]
pub struct KeyResult {
    pub refusal: u32,
    pub key: u32,
    pub best: f32,
    pub second: f32,
    pub confidence: f32,
    pub shapeless: u32,
}

// The answer for a classified chroma.
fn judge(classified: Classified) -> KeyResult
    ensures { result ≡ judged classified }
{
    KeyResult {
        refusal: 0,
        key: u8::from(classified.key) as u32,
        best: classified.best,
        second: classified.second,
        confidence: key_confidence(classified.best, classified.second),
        shapeless: u32::from(classified.shapeless),
    }
}

// Writes the 24 scores of a chroma by key number from the front of `out`. Refusal 18: a chroma not of
// 12 numbers, or fewer than 24 places.
pub fn scores_of_chroma(chroma: &[f32], out: &mut [f32]) -> ScoresResult
    ensures { scores_outcome result out.new ≡ scores_call chroma.now out.old }
{
    if (chroma.len() != 12) | (out.len() < 24) {
        return ScoresResult {
            refusal: 18,
            shapeless: 0,
        };
    }
    let values = twelve_values(chroma);
    let scored = score_keys(&values);
    out[..24].copy_from_slice(&scored.scores);
    ScoresResult {
        refusal: 0,
        shapeless: u32::from(scored.shapeless),
    }
}

// The key of a chroma, the highest and the second score and the confidence. Refusal 18: a chroma not of
// 12 numbers.
pub fn key_of_chroma(chroma: &[f32]) -> KeyResult
    ensures { result ≡ key_call chroma.now }
{
    match <&[f32; 12]>::try_from(chroma) {
        Ok(chroma) => judge(classify_key(chroma)),
        Err(_) => KeyResult {
            refusal: 18,
            key: 24,
            best: 0.0,
            second: 0.0,
            confidence: 0.0,
            shapeless: 0,
        },
    }
}
