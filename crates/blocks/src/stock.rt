// Constant-Q chromas computed ahead: eight positions at once where their windows lie whole on the track.
ghost use Rattle.std.specs.Prelude.{◌≡◌, ◌<◌, ◌≤◌, length};
ghost use Rattle.constant_q.specs.inside.Powers.{constant_q_rows};
ghost use Rattle.blocks.specs.inside.Stock.{constant_at, Centred, Tuned, Stock, FilledFrom, HandedOut};

use crate::block::{are_whole, write_chromas};
use constant_q::chroma::constant_q_chroma;

// The positions that a block holds the chromas of: so many, from the first on.
#[derive(Clone, Copy)]
pub struct Held {
    pub first: usize,
    pub count: usize,
}

// The chroma of a position, and what the block holds then.
#[derive(Clone, Copy)]
pub struct Handed {
    pub held: Held,
    pub chroma: [f32; 12],
}

// Fills the block from position k on: with eight chromas where their windows are whole, else with one.
fn refill(
    lowest: u8,
    samples: &[f32],
    half: usize,
    hop: usize,
    lengths: &[u32],
    coefficients: &[f32],
    windows: &[f32],
    positions: usize,
    k: usize,
    block: &mut [[f32; 12]],
) -> Held
    requires { (k < positions) × Centred (length samples.now) half hop positions × Tuned lengths.now coefficients.now (length windows.now) × (length block.old ≡ 8) }
    ensures { FilledFrom (constant_at (constant_q_rows lowest lengths.now coefficients.now windows.now) samples.now half hop) k result block.new }
{
    let centre = k * hop + half;
    if positions - k >= 8 && are_whole(samples.len(), centre, hop, lengths) {
        write_chromas(
            lowest,
            samples,
            centre,
            hop,
            lengths,
            coefficients,
            windows,
            block,
        );
        return Held { first: k, count: 8 };
    }
    block[0] = constant_q_chroma(lowest, samples, centre, lengths, coefficients, windows);
    Held { first: k, count: 1 }
}

// The chroma of position k, from the block or into it.
pub fn supply(
    lowest: u8,
    samples: &[f32],
    half: usize,
    hop: usize,
    lengths: &[u32],
    coefficients: &[f32],
    windows: &[f32],
    positions: usize,
    k: usize,
    held: Held,
    block: &mut [[f32; 12]],
) -> Handed
    requires { (k < positions) × Centred (length samples.now) half hop positions × Tuned lengths.now coefficients.now (length windows.now) × Stock (constant_at (constant_q_rows lowest lengths.now coefficients.now windows.now) samples.now half hop) held block.old × (held.first ≤ k) }
    ensures { HandedOut (constant_at (constant_q_rows lowest lengths.now coefficients.now windows.now) samples.now half hop) k result block.new }
{
    let at = k - held.first;
    if at < held.count {
        let chroma = block[at];
        return Handed { held, chroma };
    }
    let held = refill(
        lowest,
        samples,
        half,
        hop,
        lengths,
        coefficients,
        windows,
        positions,
        k,
        block,
    );
    let chroma = block[0];
    Handed { held, chroma }
}
