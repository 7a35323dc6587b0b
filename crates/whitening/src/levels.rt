// Whitening and normalising the twelve values of a chroma.
ghost use Rattle.std.specs.Prelude.{◌≡◌};
ghost use Rattle.whitening.specs.Levels.{whitened, whitened_of, divided_by, normalized_of};

use numbers::twelve::sum_of_twelve;
use roots::square_root;

// The square root of a value above 0; any other stays.
fn whiten_value(x: f32) -> f32
    ensures { result ≡ whitened x }
{
    if x > 0.0 { square_root(x) } else { x }
}

// The Rust's `whiten_chroma`, with the power 0.5 as the square root.
pub fn whiten_chroma(chroma: &[f32; 12]) -> [f32; 12]
    ensures { result ≡ whitened_of chroma.now }
{
    chroma.map(whiten_value)
}

// Each value over the total.
fn divide_by(chroma: &[f32; 12], total: f32) -> [f32; 12]
    ensures { result ≡ divided_by chroma.now total }
{
    chroma.map(|value| value / total)
}

// The Rust's `normalize_chroma`: over the sum, where that is above 2^-23.
pub fn normalize_chroma(chroma: &[f32; 12]) -> [f32; 12]
    ensures { result ≡ normalized_of chroma.now }
{
    let total = sum_of_twelve(chroma);
    if total > 0.00000011920929 {
        divide_by(chroma, total)
    } else {
        *chroma
    }
}
