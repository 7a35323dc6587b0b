// The key that the scores tell, and how sure it is.
ghost use Rattle.std.specs.Prelude.{◌≡◌};
ghost use Rattle.key_choice.specs.Classify.{louder, chosen_key, confidence_of, classified_of};

use crate::places::{Places, find_places};
use keys::Key;
use keys::numbers::are_relative_keys;
use numbers::single::{clamp, magnitude};
use scores::scoring::score_keys;

// The Rust's `(key, best, second, scores)`, and whether the chroma has no shape.
#[derive(Clone, Copy)]
pub struct Classified {
    pub key: Key,
    pub best: f32,
    pub second: f32,
    pub scores: [f32; 24],
    pub shapeless: bool,
}

// Whether the second key's tonic is heard above 1.2 times the first one's.
fn is_louder(chroma: &[f32; 12], first: Key, second: Key) -> bool
    ensures { result ≡ louder chroma.now first second }
{
    chroma[usize::from(second.tonic)] > chroma[usize::from(first.tonic)] * 1.2
}

// The Rust's `disambiguate_relative_keys`: the relative key in second place is taken where the margin
// is not above 0.05 and its tonic is louder.
fn choose_key(chroma: &[f32; 12], places: Places) -> Key
    ensures { result ≡ chosen_key chroma.now places }
{
    let first = places.first;
    let second = places.second;
    let best = first.key;
    let other = second.key;
    let clear = first.score - second.score > 0.05;
    if !clear & are_relative_keys(best, other) & is_louder(chroma, best, other) {
        other
    } else {
        best
    }
}

// The Rust's `key_confidence`.
pub fn key_confidence(best: f32, second: f32) -> f32
    ensures { result ≡ confidence_of best second }
{
    let size = magnitude(best);
    if size > 0.00000011920929 {
        clamp((best - second) / size, 0.0, 1.0)
    } else {
        0.0
    }
}

// The Rust's `classify_key_impl`.
pub fn classify_key(chroma: &[f32; 12]) -> Classified
    ensures { result ≡ classified_of chroma.now }
{
    let scored = score_keys(chroma);
    let places = find_places(&scored.scores);
    Classified {
        key: choose_key(chroma, places),
        best: places.first.score,
        second: places.second.score,
        scores: scored.scores,
        shapeless: scored.shapeless,
    }
}
