// How far a track is tuned off the pitch classes.
ghost use Rattle.std.specs.Prelude.{◌≡◌, length};
ghost use Rattle.chroma.specs.Tuning.{peak_added, frame_added, mean_offset, tuning_of};

use numbers::single::clamp;

// Peaks' heights, and their offsets times their heights.
#[derive(Clone, Copy)]
pub struct Peaks {
    pub heights: f32,
    pub offsets: f32,
}

// One bin more, with its neighbours: a peak above both and above 2^-23 counts, unless it is flat.
fn add_bin(peaks: Peaks, before: f32, height: f32, after: f32) -> Peaks
    ensures { result ≡ peak_added peaks before height after }
{
    let bend = 2.0 * height - before - after;
    if (height > before)
        & (height > after)
        & (height > 0.00000011920929)
        & (bend > 0.00000011920929)
    {
        let offset = 0.5 * (after - before) / bend;
        return Peaks {
            heights: peaks.heights + height,
            offsets: peaks.offsets + offset * height,
        };
    }
    peaks
}

// The twelve bins of a frame more.
fn add_frame(peaks: Peaks, values: &[f32; 12]) -> Peaks
    ensures { result ≡ frame_added values.now peaks }
{
    let mut sums = peaks;
    for bin in 0..12 {
        let last = (bin + 11) % 12;
        let next = (bin + 1) % 12;
        sums = add_bin(sums, values[last], values[bin], values[next]);
    }
    sums
}

// The mean offset, held to half a bin either way, and 0 without peaks.
fn mean_offset(peaks: Peaks) -> f32
    ensures { result ≡ mean_offset peaks }
{
    if peaks.heights > 0.00000011920929 {
        clamp(peaks.offsets / peaks.heights, -0.5, 0.5)
    } else {
        0.0
    }
}

// The Rust's `estimate_tuning`.
pub fn estimate_tuning(frames: &[[f32; 12]]) -> f32
    ensures { result ≡ tuning_of frames.now (length frames.now) }
{
    let mut peaks = Peaks {
        heights: 0.0,
        offsets: 0.0,
    };
    for values in frames {
        // a copy of its own: by reference the compiler works out each bin's bend before the tests that mostly rule it out
        let own = *values;
        peaks = add_frame(peaks, &own);
    }
    mean_offset(peaks)
}
