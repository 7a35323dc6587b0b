// Constant-Q: the chroma of all rows' powers around a centre.
ghost use Rattle.std.specs.Prelude.{◌≡◌, ◌≤◌, length};
ghost use Rattle.sheets.specs.Sheet.{joined_length};
ghost use Rattle.constant_q.specs.ConstantQ.{constant_q_of};
ghost use Rattle.constant_q.specs.inside.Powers.{constant_q_rows, powers_by_class};

use crate::powers::write_powers;
use crate::span::half_is_left;
use filters::classes::class_at;

// The powers of each class's rows together, without those of which less than half is left.
fn sum_powers(
    lowest: u8,
    samples: usize,
    centre: usize,
    lengths: &[u32],
    powers: &[f32],
) -> [f32; 12]
    requires { (centre ≤ samples) × (length powers.now ≤ 256) × (length powers.now ≤ length lengths.now) }
    ensures { result ≡ powers_by_class lowest samples centre lengths.now powers.now }
{
    let mut sums = [0.0; 12];
    for k in 0..powers.len() {
        if half_is_left(lengths[k] as usize, centre, samples) {
            sums[class_at(lowest, k)] += powers[k];
        }
    }
    sums
}

// The constant-Q chroma around a centre.
pub fn constant_q_chroma(
    lowest: u8,
    samples: &[f32],
    centre: usize,
    lengths: &[u32],
    coefficients: &[f32],
    windows: &[f32],
) -> [f32; 12]
    requires { (centre ≤ length samples.now) × (length lengths.now ≡ length coefficients.now) × (length lengths.now ≤ 256) × (joined_length lengths.now (length lengths.now) ≡ length windows.now) }
    ensures { result ≡ constant_q_of (constant_q_rows lowest lengths.now coefficients.now windows.now) samples.now centre }
{
    let rows = lengths.len();
    let mut room = [0.0; 256];
    write_powers(samples, centre, lengths, coefficients, windows, &mut room);
    sum_powers(lowest, samples.len(), centre, lengths, &room[..rows])
}
