// Goertzel: the chroma of the magnitudes that the rows' notes have in one frame.
#![tactic(auto)]

ghost use Rattle.std.specs.Prelude.{◌≡◌, ◌+◌, ◌<◌, ◌≤◌, length};
ghost use Rattle.std.specs.Float.{binary32};
ghost use Rattle.std.specs.Float.Ieee.{mul};
ghost use Rattle.goertzel.specs.Goertzel.{harmonic_row, harmonic_added, contribution_of, contributions_by_class, goertzel_of};
ghost use Rattle.goertzel.specs.inside.Rows.{goertzel_rows, row_at};

use filters::classes::{class_at, divide_by_weights, sum_weights};
use filters::resonator::GoertzelRow;
use magnitudes::write_magnitudes;

// The sheet's row for the lowest note plus k.
fn row_at(coefficients: &[f32], weights: &[f32], k: usize) -> GoertzelRow
    requires { (k < length coefficients.now) × (k < length weights.now) }
    ensures { result ≡ row_at coefficients.now weights.now k }
{
    GoertzelRow {
        coefficient: coefficients[k],
        weight: weights[k],
    }
}

// The row of the note that lies `up` notes above row k's, and at 255 at most.
fn harmonic_row(lowest: u8, k: usize, up: usize) -> usize
    requires { (k < 256) × (up < 256) }
    ensures { result ≡ harmonic_row lowest k up }
{
    let from = lowest as usize;
    let note = from + k + up;
    if note < 255 { note - from } else { 255 - from }
}

// The sum with a harmonic's magnitude times a factor, where the harmonic has a row.
fn add_harmonic(sum: f32, magnitudes: &[f32], lowest: u8, k: usize, up: usize, factor: f32) -> f32
    requires { (k < 256) × (up < 256) }
    ensures { result ≡ harmonic_added magnitudes.now lowest k up factor sum }
{
    let row = harmonic_row(lowest, k, up);
    if row < magnitudes.len() {
        sum + magnitudes[row] * factor
    } else {
        sum
    }
}

// What a row's note contributes: its own magnitude and those of its harmonics.
fn contribution(magnitudes: &[f32], lowest: u8, k: usize) -> f32
    requires { (k < length magnitudes.now) × (length magnitudes.now ≤ 256) }
    ensures { result ≡ contribution_of magnitudes.now lowest k }
{
    let second = add_harmonic(magnitudes[k], magnitudes, lowest, k, 12, 0.5);
    let third = add_harmonic(second, magnitudes, lowest, k, 19, 0.33);
    add_harmonic(third, magnitudes, lowest, k, 24, 0.25)
}

// A contribution under its row's weight.
fn weighted(row: GoertzelRow, contribution: f32) -> f32
    ensures { result ≡ mul binary32 contribution row.weight }
{
    contribution * row.weight
}

// What the rows contribute to each class.
fn sum_contributions(
    lowest: u8,
    magnitudes: &[f32],
    coefficients: &[f32],
    weights: &[f32],
) -> [f32; 12]
    requires { (length magnitudes.now ≤ 256) × (length magnitudes.now ≤ length coefficients.now) × (length magnitudes.now ≤ length weights.now) }
    ensures { result ≡ contributions_by_class lowest magnitudes.now weights.now }
{
    let mut sums = [0.0; 12];
    for k in 0..magnitudes.len() {
        let row = row_at(coefficients, weights, k);
        let class = class_at(lowest, k);
        sums[class] += weighted(row, contribution(magnitudes, lowest, k));
    }
    sums
}

// The Goertzel chroma of the frame that starts at `start`, by an engine.
pub fn goertzel_chroma(
    engine: u32,
    lowest: u8,
    samples: &[f32],
    start: usize,
    window: &[f32],
    coefficients: &[f32],
    weights: &[f32],
) -> [f32; 12]
    requires { (start + length window.now ≤ length samples.now) × (length coefficients.now ≡ length weights.now) × (length weights.now ≤ 256) }
    ensures { result ≡ goertzel_of (goertzel_rows lowest window.now coefficients.now weights.now) samples.now start }
{
    let rows = coefficients.len();
    let mut room = [0.0; 256];
    write_magnitudes(engine, samples, start, window, coefficients, &mut room);
    let sums = sum_contributions(lowest, &room[..rows], coefficients, weights);
    let together = sum_weights(lowest, weights);
    divide_by_weights(&sums, &together)
}
