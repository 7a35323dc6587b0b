// Replays stored answers of the Rust: a record is 41 numbers of 32 bits, each with its lowest byte
// first. They are the patterns of a chroma's 12 values and of its 24 scores, the key number, the
// patterns of best score, second score and confidence, and 1 where the chroma has no shape, else 0.
#![tactic(auto)]

ghost use Rattle.std.specs.Prelude.{◌≡◌, ◌+◌, ◌*◌, ◌≤◌, length};
ghost use Rattle.replayed.specs.Records.{word_at, value_at, same_value, chroma_at, same_scores, same_key, agrees, differing};

use key_choice::classify::{Classified, classify_key, key_confidence};
use numbers::floats::Floating;
use numbers::single::from_pattern;
use std::array;

// The number in the four bytes from `at` on.
pub fn word_at(bytes: &[u8], at: usize) -> u32
    requires { at + 4 ≤ length bytes.now }
    ensures { result ≡ word_at bytes.now at }
{
    u32::from_le_bytes([bytes[at], bytes[at + 1], bytes[at + 2], bytes[at + 3]])
}

// The value of the pattern that starts at `at`.
pub fn value_at(bytes: &[u8], at: usize) -> f32
    requires { at + 4 ≤ length bytes.now }
    ensures { result ≡ value_at bytes.now at }
{
    from_pattern(word_at(bytes, at))
}

// Whether two values are the same: bit for bit, and any NaN as any other.
pub fn same_value(a: f32, b: f32) -> bool
    ensures { result ≡ same_value a b }
{
    a.order_key() == b.order_key()
}

// The chroma of the record that starts at `start`.
fn chroma_at(bytes: &[u8], start: usize) -> [f32; 12]
    requires { start + 164 ≤ length bytes.now }
    ensures { result ≡ chroma_at bytes.now start }
{
    array::from_fn(|i| value_at(bytes, start + 4 * i))
}

// Whether these are the record's scores.
fn scores_agree(bytes: &[u8], start: usize, scores: &[f32; 24]) -> bool
    requires { start + 164 ≤ length bytes.now }
    ensures { result ≡ same_scores bytes.now start scores.now }
{
    let mut same = true;
    for k in 0..24 {
        same &= same_value(scores[k], value_at(bytes, start + 48 + 4 * k));
    }
    same
}

// Whether this is the record's key, with its two scores, its confidence and whether there is no shape.
fn key_agrees(bytes: &[u8], start: usize, found: Classified) -> bool
    requires { start + 164 ≤ length bytes.now }
    ensures { result ≡ same_key bytes.now start found }
{
    let number = u8::from(found.key) as u32;
    let confidence = key_confidence(found.best, found.second);
    let shapeless = u32::from(found.shapeless);
    (number == word_at(bytes, start + 144))
        & same_value(found.best, value_at(bytes, start + 148))
        & same_value(found.second, value_at(bytes, start + 152))
        & same_value(confidence, value_at(bytes, start + 156))
        & (shapeless == word_at(bytes, start + 160))
}

// Whether what is worked out from the record's chroma is what the record says.
fn record_agrees(bytes: &[u8], start: usize) -> bool
    requires { start + 164 ≤ length bytes.now }
    ensures { result ≡ agrees bytes.now start }
{
    let chroma = chroma_at(bytes, start);
    let found = classify_key(&chroma);
    scores_agree(bytes, start, &found.scores) & key_agrees(bytes, start, found)
}

// How many of the first `count` records say something else.
pub fn count_differing(bytes: &[u8], count: usize) -> usize
    requires { count * 164 ≤ length bytes.now }
    ensures { result ≡ differing bytes.now count }
{
    let mut differ = 0;
    for n in 0..count {
        if !record_agrees(bytes, n * 164) {
            differ += 1;
        }
    }
    differ
}
