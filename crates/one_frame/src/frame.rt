// One frame: its energy, its chroma, its row.
ghost use Rattle.std.specs.Prelude.{◌≡◌, ◌+◌, ◌^◌, ◌<◌, ◌≤◌, length};
ghost use Rattle.goertzel.specs.Goertzel.{goertzel_of};
ghost use Rattle.goertzel.specs.inside.Rows.{goertzel_rows};
ghost use Rattle.one_frame.specs.Blend.{blend_of};
ghost use Rattle.one_frame.specs.Frame.{frame_energy, loud, middle_of, row_from, whole};
ghost use Rattle.calls.specs.Call.{seconds_at};

use crate::blend::blend;
use calls::Settings;
use goertzel::goertzel_chroma;
use numbers::floats::is_finite;

// One loud frame: its centre in seconds, its chroma, its energy.
#[derive(Clone, Copy)]
pub struct Row {
    pub centre: f64,
    pub values: [f32; 12],
    pub energy: f32,
}

// The mean of the squares of a frame's finite samples.
pub fn frame_energy(samples: &[f32], start: usize, size: usize) -> f32
    requires { (start + size ≤ length samples.now) × (size ≤ 65536) }
    ensures { result ≡ frame_energy samples.now start size }
{
    let mut sum: f32 = -0.0;
    for i in 0..size {
        let x = samples[start + i];
        let square = if is_finite(x) { x * x } else { -0.0 };
        sum += square;
    }
    sum / std::num::nearest_u32_to_f32(size as u32)
}

// Whether a frame of this energy counts.
pub fn is_loud(energy: f32) -> bool
    ensures { result ≡ loud energy }
{
    energy > 1.0e-8
}

// The chroma of the frame that starts at `start`, whose constant-Q chroma is known.
fn frame_chroma(
    engine: u32,
    lowest: u8,
    samples: &[f32],
    window: &[f32],
    coefficients: &[f32],
    weights: &[f32],
    start: usize,
    constant: [f32; 12],
) -> [f32; 12]
    requires { (start + length window.now ≤ length samples.now) × (length coefficients.now ≡ length weights.now) × (length weights.now ≤ 256) }
    ensures { result ≡ blend_of (goertzel_of (goertzel_rows lowest window.now coefficients.now weights.now) samples.now start) constant }
{
    let first = goertzel_chroma(
        engine,
        lowest,
        samples,
        start,
        window,
        coefficients,
        weights,
    );
    blend(&first, &constant)
}

// The middle of a frame, in seconds.
fn frame_centre(settings: Settings, start: usize) -> f64
    requires { start + settings.frame_size < 2 ^ 64 }
    ensures { result ≡ seconds_at settings (middle_of settings start) }
{
    let middle = start + settings.frame_size / 2;
    std::num::nearest_u64_to_f64(middle as u64) / std::num::nearest_u64_to_f64(settings.rate as u64)
}

// The row of the frame that starts at `start` and has this energy and this constant-Q chroma.
pub fn frame_row(
    settings: Settings,
    lowest: u8,
    samples: &[f32],
    window: &[f32],
    coefficients: &[f32],
    weights: &[f32],
    start: usize,
    energy: f32,
    constant: [f32; 12],
) -> Row
    requires { (start + settings.frame_size ≤ length samples.now) × (length window.now ≡ settings.frame_size) × (length coefficients.now ≡ length weights.now) × (length weights.now ≤ 256) }
    ensures { result ≡ row_from settings start energy (goertzel_of (goertzel_rows lowest window.now coefficients.now weights.now) samples.now start) constant }
{
    let centre = frame_centre(settings, start);
    let values = frame_chroma(
        settings.engine,
        lowest,
        samples,
        window,
        coefficients,
        weights,
        start,
        constant,
    );
    Row {
        centre,
        values,
        energy,
    }
}

// Whether the row's energy and its twelve values are finite.
pub fn is_whole(row: Row) -> bool
    ensures { result ≡ whole row }
{
    let values = row.values;
    let mut sofar = is_finite(row.energy);
    for i in 0..12 {
        sofar &= is_finite(values[i]);
    }
    sofar
}
