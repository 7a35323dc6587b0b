// The constant-Q chromas of eight frame positions, a hop apart.
ghost use Rattle.std.specs.Prelude.{◌≡◌, ◌+◌, ◌*◌, ◌<◌, ◌≤◌, length};
ghost use Rattle.constant_q.specs.inside.Powers.{constant_q_rows};
ghost use Rattle.blocks.specs.inside.Block.{whole_at, all_whole, Inside, empty_block, row_added, chromas_of};

use crate::eight::eight_powers;
use constant_q::powers::place;
use filters::classes::class_at;

// Whether a window of this size lies whole on the track at all eight positions.
fn is_whole(samples: usize, centre: usize, hop: usize, size: usize) -> bool
    requires { centre + 7 * hop ≤ samples }
    ensures { result ≡ whole_at samples centre hop size }
{
    let half = size / 2;
    if centre < half {
        return false;
    }
    let last = centre - half + 7 * hop;
    size <= samples - last
}

// Whether the windows of all rows do.
pub fn are_whole(samples: usize, centre: usize, hop: usize, lengths: &[u32]) -> bool
    requires { centre + 7 * hop ≤ samples }
    ensures { result ≡ all_whole samples centre hop lengths.now }
{
    let mut sofar = true;
    for length in lengths {
        sofar &= is_whole(samples, centre, hop, *length as usize);
    }
    sofar
}

// Eight empty sums.
fn clear(block: &mut [[f32; 12]])
    requires { length block.old ≡ 8 }
    ensures { block.new ≡ empty_block }
{
    block.copy_from_slice(&[[0.0; 12]; 8]);
}

// The powers of row k are added to the sums of its class, one to each position's.
fn add_row(lowest: u8, k: usize, powers: [f32; 8], block: &mut [[f32; 12]])
    requires { (k < 256) × (length block.old ≡ 8) }
    ensures { block.new ≡ row_added lowest k powers block.old }
{
    let class = class_at(lowest, k);
    for j in 0..8 {
        block[j][class] += powers[j];
    }
}

// The chromas of eight positions, the first of which has this centre.
pub fn write_chromas(
    lowest: u8,
    samples: &[f32],
    centre: usize,
    hop: usize,
    lengths: &[u32],
    coefficients: &[f32],
    windows: &[f32],
    block: &mut [[f32; 12]],
)
    requires { Inside (length samples.now) centre hop lengths.now coefficients.now (length windows.now) × (length block.old ≡ 8) }
    ensures { block.new ≡ chromas_of (constant_q_rows lowest lengths.now coefficients.now windows.now) samples.now centre hop }
{
    clear(block);
    let end = windows.len();
    let mut first = 0;
    for k in 0..lengths.len() {
        let placed = place(samples.len(), centre, lengths, coefficients, end, k, first);
        let powers = eight_powers(samples, windows, placed.lane, hop);
        add_row(lowest, k, powers, block);
        first = placed.next;
    }
}
