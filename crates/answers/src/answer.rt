// What an analysis answers, as numbers.
ghost use Rattle.std.specs.Prelude.{◌≡◌};
ghost use Rattle.keys.specs.Numbers.{key_number};
ghost use Rattle.answers.specs.Answer.{keyless, with_alternate};

use alternates::alternate::Alternate;
use keys::Key;
use verdicts::verdict::Verdict;

// Refusal or 0, the position that 9 names, keys by number (24 for a missing one), 1 where the chroma has no shape, how
// many rows are written, chroma.
#[repr(C)]
#[derive(Clone, Copy)]
pub struct AnalyseResult {
    pub refusal: u32,
    pub position: u64,
    pub key: u32,
    pub dsp_key: u32,
    pub alternate: u32,
    pub coverage: f32,
    pub confidence: f32,
    pub shapeless: u32,
    pub frames: u64,
    pub estimates: u64,
    pub segments: u64,
    pub chroma: [f32; 12],
}

// How many rows of each kind are written.
#[derive(Clone, Copy)]
pub struct Counts {
    pub frames: usize,
    pub estimates: usize,
    pub segments: usize,
}

// An answer without a key: a refusal, or the empty analysis.
pub fn keyless(refusal: u32, position: usize, frames: usize) -> AnalyseResult
    ensures { result ≡ keyless refusal position frames }
{
    AnalyseResult {
        refusal,
        position: position as u64,
        key: 24,
        dsp_key: 24,
        alternate: 24,
        coverage: 0.0,
        confidence: 0.0,
        shapeless: 0,
        frames: frames as u64,
        estimates: 0,
        segments: 0,
        chroma: [0.0; 12],
    }
}

// An answer with the reported key, and the alternate that is named or not.
pub fn with_alternate(
    verdict: Verdict,
    reported: Key,
    counts: Counts,
    other: Option<Alternate>,
) -> AnalyseResult
    ensures { result ≡ with_alternate verdict reported counts other }
{
    let key = u32::from(u8::from(reported));
    let chroma = verdict.chroma;
    let (alternate, coverage) = match other {
        Some(named) => (u32::from(named.key), named.coverage),
        None => (24, 0.0),
    };
    AnalyseResult {
        refusal: 0,
        position: 0,
        key,
        dsp_key: key,
        alternate,
        coverage,
        confidence: verdict.confidence,
        shapeless: u32::from(verdict.shapeless),
        frames: counts.frames as u64,
        estimates: counts.estimates as u64,
        segments: counts.segments as u64,
        chroma,
    }
}
