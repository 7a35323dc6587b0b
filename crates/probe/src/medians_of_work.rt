// The medians, in lent work numbers.
ghost use Rattle.std.specs.Prelude.{◌≡◌};
ghost use Rattle.probe.specs.Medians.{work_left, median_of_work, work_weighed, medians_of_work};

use crate::chroma_leaves::Twelve;
use medians::select;
use onsets::weighted::weighted_medians;

// The median of the first numbers, and 0 where there is none.
#[unsafe(no_mangle)]
pub extern "C" fn probe_median(work: &mut [f32], count: usize) -> f32
    ensures { (result ≡ median_of_work count work.old) × (work.new ≡ work_left count work.old) }
{
    if (count == 0) | (count > work.len()) {
        return 0.0;
    }
    select(&mut work[..count])
}

// The twelve medians of the first weighted frames, and zeros where there is none or a slice is too short.
#[unsafe(no_mangle)]
pub extern "C" fn probe_weighted_medians(
    frames: &[[f32; 12]],
    energies: &[f32],
    work: &mut [f32],
    count: usize,
) -> Twelve
    ensures { (result.values ≡ medians_of_work count frames.now energies.now work.old) × (work.new ≡ work_weighed count frames.now energies.now work.old) }
{
    if (count == 0) | (count > frames.len()) | (count > energies.len()) | (count > work.len()) {
        return Twelve { values: [0.0; 12] };
    }
    let values = weighted_medians(frames, energies, count, work);
    Twelve { values }
}
