// A window's estimate, and estimates in lent rows.
ghost use Rattle.std.specs.Prelude.{◌≡◌};
ghost use Rattle.timeline.specs.Estimates.{lent_estimates, estimate_room};

use keys::Key;
use numbers::counts::fewer;

// The Rust's LocalEstimate: the window's middle in seconds, its key and how sure that is; and whether the chroma that
// tells it has no shape.
#[derive(Clone, Copy)]
pub struct Estimate {
    pub centre: f64,
    pub key: Key,
    pub confidence: f32,
    pub shapeless: bool,
}

// How many rows there are.
pub fn estimate_room(centres: &[f64], keys: &[u8], confidences: &[f32], shapeless: &[u8]) -> usize
    ensures { result ≡ estimate_room (lent_estimates centres.now keys.now confidences.now shapeless.now) }
{
    let told = fewer(confidences.len(), shapeless.len());
    fewer(centres.len(), fewer(keys.len(), told))
}
