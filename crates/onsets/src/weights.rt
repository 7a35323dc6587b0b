// Weights that let onsets count for more.
ghost use Rattle.std.specs.Prelude.{◌≡◌, cond, ◌<◌, ◌≤◌, eqb, length};
ghost use Rattle.laws.specs.Front.{front, list};
ghost use Rattle.laws.specs.Values.{one};
ghost use Rattle.onsets.specs.Onsets.{rise_weight, onset_weight, weight_at};

use numbers::floats::larger;
use roots::square_root;

// 1 and four times the rise from one square root to the next.
fn rise_weight(low: f32, high: f32) -> f32
    ensures { result ≡ rise_weight low high }
{
    1.0 + larger(high - low, 0.0) * 4.0
}

// 1 and four times the rise of the energies' square roots.
fn onset_weight(before: f32, energy: f32) -> f32
    ensures { result ≡ onset_weight before energy }
{
    let high = square_root(energy);
    let low = square_root(before);
    rise_weight(low, high)
}

// Entry j of the Rust's `compute_onset_weights`: 1 for the first frame.
pub fn weight_at(energies: &[f32], j: usize) -> f32
    requires { j < length energies.now }
    ensures { result ≡ weight_at energies.now j }
{
    if j == 0 {
        return 1.0;
    }
    onset_weight(energies[j - 1], energies[j])
}

// The weight of frame j by the roots of its energy and of the one before.
fn weight_by_roots(j: usize, low: f32, high: f32) -> f32
    ensures { result ≡ cond (eqb j 0) one (rise_weight low high) }
{
    if j == 0 {
        return 1.0;
    }
    rise_weight(low, high)
}

// The weights of the first `count` frames, with one square root for each.
pub fn write_weights(energies: &[f32], count: usize, weights: &mut [f32])
    requires { (count ≤ length energies.now) × (count ≤ length weights.old) }
    ensures { weights.new ≡ front (list (weight_at energies.now) count) weights.old }
{
    let mut low = 0.0;
    for j in 0..count {
        let high = square_root(energies[j]);
        weights[j] = weight_by_roots(j, low, high);
        low = high;
    }
}
