// A window's estimate.
ghost use Rattle.std.specs.Prelude.{◌≡◌};
ghost use Rattle.windows.specs.Estimates.{estimate_of};

use key_choice::classify::{classify_key, key_confidence};
use timeline::estimate::Estimate;
use whitening::levels::normalize_chroma;

// What a window's summed chroma tells.
pub fn estimate_of(centre: f64, chroma: [f32; 12]) -> Estimate
    ensures { result ≡ estimate_of centre chroma }
{
    let normal = normalize_chroma(&chroma);
    let told = classify_key(&normal);
    let key = told.key;
    Estimate {
        centre,
        key,
        confidence: key_confidence(told.best, told.second),
        shapeless: told.shapeless,
    }
}
