// The chroma leaves.
ghost use Rattle.std.specs.Prelude.{◌≡◌, ltb, cond, length};
ghost use Rattle.laws.specs.Values.{plus_zero};
ghost use Rattle.whitening.specs.Levels.{whitened_of, normalized_of};
ghost use Rattle.onsets.specs.Onsets.{weight_at};
ghost use Rattle.chroma.specs.Shift.{shifted_of};
ghost use Rattle.chroma.specs.Tuning.{tuning_of};

use chroma::{shift, tuning};
use onsets::weights::weight_at;
use whitening::levels;

#[repr(C)]
#[derive(Clone, Copy)]
pub struct Twelve {
    pub values: [f32; 12],
}

#[unsafe(no_mangle)]
pub extern "C" fn probe_whiten(chroma: &[f32; 12]) -> Twelve
    ensures { result.values ≡ whitened_of chroma.now }
{
    let values = levels::whiten_chroma(chroma);
    Twelve { values }
}

#[unsafe(no_mangle)]
pub extern "C" fn probe_normalize(chroma: &[f32; 12]) -> Twelve
    ensures { result.values ≡ normalized_of chroma.now }
{
    let values = levels::normalize_chroma(chroma);
    Twelve { values }
}

#[unsafe(no_mangle)]
pub extern "C" fn probe_shift(chroma: &[f32; 12], offset: f32) -> Twelve
    ensures { result.values ≡ shifted_of chroma.now offset }
{
    let values = shift::shift_chroma(chroma, offset);
    Twelve { values }
}

// The weight of frame j, and 0 where there is none.
#[unsafe(no_mangle)]
pub extern "C" fn probe_onset_weight(energies: &[f32], j: usize) -> f32
    ensures { result ≡ cond (ltb j (length energies.now)) (weight_at energies.now j) plus_zero }
{
    if j < energies.len() {
        weight_at(energies, j)
    } else {
        0.0
    }
}

// The tuning over the first frames, and 0 where there are not as many.
#[unsafe(no_mangle)]
pub extern "C" fn probe_tuning(frames: &[[f32; 12]], count: usize) -> f32
    ensures { result ≡ cond (ltb (length frames.now) count) plus_zero (tuning_of frames.now count) }
{
    if count > frames.len() {
        0.0
    } else {
        tuning::estimate_tuning(&frames[..count])
    }
}
