// The magnitudes that the rows' notes have in one frame, by either of two engines.
#![tactic(auto)]

pub mod batch;
pub mod row;
pub mod side_by_side;

ghost use Rattle.std.specs.Prelude.{◌≡◌, ◌+◌, ◌≤◌, length};
ghost use Rattle.laws.specs.Front.{front};
ghost use Rattle.magnitudes.specs.Magnitudes.{magnitudes_of};

use crate::batch::write_in_fours;
use crate::side_by_side::write_side_by_side;

// The magnitudes of all rows, from the front of `room`: by engine 1 four rows at a time, else all side by side.
pub fn write_magnitudes(
    engine: u32,
    samples: &[f32],
    start: usize,
    window: &[f32],
    coefficients: &[f32],
    room: &mut [f32],
)
    requires { (start + length window.now ≤ length samples.now) × (length coefficients.now ≤ length room.old) × (length coefficients.now ≤ 256) }
    ensures { room.new ≡ front (magnitudes_of window.now coefficients.now samples.now start) room.old }
{
    if engine == 1 {
        write_in_fours(samples, start, window, coefficients, room);
    } else {
        write_side_by_side(samples, start, window, coefficients, room);
    }
}
