// The medians of the values weighted by onset, bin by bin.
ghost use Rattle.std.specs.Prelude.{◌≡◌, ◌<◌, ◌≤◌, length, replicate};
ghost use Rattle.laws.specs.Front.{front, list};
ghost use Rattle.laws.specs.Values.{plus_zero};
ghost use Rattle.onsets.specs.Onsets.{weight_at};
ghost use Rattle.onsets.specs.Weighted.{weighted_at, weighted_medians};

use crate::weights::{weight_at, write_weights};
use medians::select;

// How many weights are kept for the twelve bins: those of twelve minutes at the usual settings.
const KEPT: usize = 16384;

// The onset weight of frame j, from the weights as far as they go.
fn weight_from(weights: &[f32], energies: &[f32], j: usize) -> f32
    requires { (j < length energies.now) × (weights.now ≡ list (weight_at energies.now) (length weights.now)) }
    ensures { result ≡ weight_at energies.now j }
{
    if j < weights.len() {
        return weights[j];
    }
    weight_at(energies, j)
}

// Work number j becomes the bin's value in frame j times the frame's weight.
fn weigh_bin(
    frames: &[[f32; 12]],
    energies: &[f32],
    weights: &[f32],
    bin: usize,
    count: usize,
    work: &mut [f32],
)
    requires { (bin < 12) × (count ≤ length frames.now) × (count ≤ length energies.now) × (count ≤ length work.old) × (weights.now ≡ list (weight_at energies.now) (length weights.now)) }
    ensures { work.new ≡ front (list (weighted_at frames.now energies.now bin) count) work.old }
{
    for j in 0..count {
        work[j] = frames[j][bin] * weight_from(weights, energies, j);
    }
}

// Every bin's median over the first `count` frames, by weights that were found before.
fn medians_by_weights(
    frames: &[[f32; 12]],
    energies: &[f32],
    weights: &[f32],
    count: usize,
    work: &mut [f32],
) -> [f32; 12]
    requires { (0 < count) × (count ≤ length frames.now) × (count ≤ length energies.now) × (count ≤ length work.old) × (weights.now ≡ list (weight_at energies.now) (length weights.now)) }
    ensures { (result ≡ weighted_medians frames.now energies.now count) × (work.new ≡ front (replicate count plus_zero) work.old) }
{
    let mut chroma = [0.0; 12];
    for bin in 0..12 {
        weigh_bin(frames, energies, weights, bin, count, work);
        chroma[bin] = select(&mut work[..count]);
    }
    chroma
}

// Every bin's median over the first `count` frames; the work numbers used end as +0.
pub fn weighted_medians(
    frames: &[[f32; 12]],
    energies: &[f32],
    count: usize,
    work: &mut [f32],
) -> [f32; 12]
    requires { (0 < count) × (count ≤ length frames.now) × (count ≤ length energies.now) × (count ≤ length work.old) }
    ensures { (result ≡ weighted_medians frames.now energies.now count) × (work.new ≡ front (replicate count plus_zero) work.old) }
{
    let mut room = [0.0; KEPT];
    let kept = count.min(KEPT);
    write_weights(energies, kept, &mut room);
    medians_by_weights(frames, energies, &room[..kept], count, work)
}
