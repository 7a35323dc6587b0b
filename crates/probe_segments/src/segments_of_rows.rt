// Majority, shortening, the reported and the alternate key, over rows of any length.
ghost use Rattle.std.specs.Prelude.{◌≡◌, ◌≤◌, length};
ghost use Rattle.timeline.specs.inside.Estimates.{lent_columns};
ghost use Rattle.timeline.specs.Segments.{lent_segments};
ghost use Rattle.timeline.specs.inside.Segments.{filled_rows, lent_stretches};
ghost use Rattle.probe_segments.specs.Segments.{probed_majority, all_numbers, few_windows, can_shorten, probed_shorten, stretch_room, probed_reported, probed_answer, probed_alternate, cut_fits, probed_cut, track_of};

use alternates::alternate::{Alternate, alternate_key};
use longest::longest::reported_key;
use majorities::majority::majority_key;
use segments::fill::{Track, fill_segments};
use shortening::shorten::shorten_segments;
use timeline::columns::LentColumns;
use timeline::segment::segment_room;
use timeline::segment_rows::LentSegments;
use timeline::stored::stored_key;

// An alternate's key number, 24 where there is none, and its coverage.
#[repr(C)]
#[derive(Clone, Copy)]
pub struct ProbedAlternate {
    pub key: u8,
    pub coverage: f32,
}

// Whether each number is a key's.
fn all_numbers(numbers: &[u8]) -> bool
    ensures { result ≡ all_numbers numbers.now (length numbers.now) }
{
    let mut sofar = true;
    for number in numbers {
        sofar &= *number < 24;
    }
    sofar
}

// The majority, and 0 where a number is above 23.
#[unsafe(no_mangle)]
pub extern "C" fn probe_majority(numbers: &[u8]) -> u8
    ensures { result ≡ probed_majority numbers.now }
{
    if all_numbers(numbers) {
        majority_key(numbers)
    } else {
        0
    }
}

// Whether the counts sum to a count of 32 bits.
fn few_windows(counts: &[u32]) -> bool
    ensures { result ≡ few_windows counts.now (length counts.now) }
{
    let mut total: u64 = 0;
    for windows in counts {
        total = (total + u64::from(*windows)).min(0x1_0000_0000);
    }
    total < 0x1_0000_0000
}

// Whether the first rows can be shortened.
fn can_shorten(keys: &[u8], counts: &[u32], count: usize) -> bool
    requires { (count ≤ length keys.now) × (count ≤ length counts.now) }
    ensures { result ≡ can_shorten keys.now counts.now count }
{
    all_numbers(&keys[..count]) & few_windows(&counts[..count])
}

// All rows shortened; nothing where a key is above 23 or the counts sum to more than 32 bits hold.
#[unsafe(no_mangle)]
pub extern "C" fn probe_shorten(
    least: f64,
    starts: &mut [f64],
    ends: &mut [f64],
    keys: &mut [u8],
    confidences: &mut [f32],
    counts: &mut [u32],
) -> usize
    ensures { filled_rows result (lent_segments starts.new ends.new keys.new confidences.new counts.new) ≡ probed_shorten least (lent_segments starts.old ends.old keys.old confidences.old counts.old) }
{
    let count = segment_room(starts, ends, keys, confidences, counts);
    if !can_shorten(keys, counts, count) {
        return 0;
    }
    let mut rows = LentSegments {
        starts,
        ends,
        keys,
        confidences,
        counts,
    };
    shorten_segments(least, count, &mut rows)
}

// How many rows three columns have.
fn stretch_room(starts: &[f64], ends: &[f64], keys: &[u8]) -> usize
    ensures { result ≡ stretch_room (lent_stretches starts.now ends.now keys.now) }
{
    starts.len().min(ends.len().min(keys.len()))
}

// The reported key of all rows.
#[unsafe(no_mangle)]
pub extern "C" fn probe_reported(classified: u8, starts: &[f64], ends: &[f64], keys: &[u8]) -> u8
    ensures { result ≡ probed_reported classified (lent_stretches starts.now ends.now keys.now) }
{
    let count = stretch_room(starts, ends, keys);
    let key = stored_key(classified);
    let reported = reported_key(key, count, starts, ends, keys);
    u8::from(reported)
}

// Both parts of an alternate's answer.
fn answer_of(alternate: Option<Alternate>) -> ProbedAlternate
    ensures { result ≡ probed_answer alternate }
{
    match alternate {
        None => ProbedAlternate {
            key: 24,
            coverage: 0.0,
        },
        Some(named) => ProbedAlternate {
            key: named.key,
            coverage: named.coverage,
        },
    }
}

// The alternate key of all rows.
#[unsafe(no_mangle)]
pub extern "C" fn probe_alternate(
    reported: u8,
    threshold: f32,
    starts: &[f64],
    ends: &[f64],
    keys: &[u8],
) -> ProbedAlternate
    ensures { result ≡ probed_alternate reported threshold (lent_stretches starts.now ends.now keys.now) }
{
    let count = stretch_room(starts, ends, keys);
    let key = stored_key(reported);
    let alternate = alternate_key(key, threshold, count, starts, ends, keys);
    answer_of(alternate)
}

// A track, from its parts and its key's number.
pub fn track_of(threshold: f32, minimum: f64, duration: f64, key: u8, confidence: f32) -> Track
    ensures { result ≡ track_of threshold minimum duration key confidence }
{
    let own = stored_key(key);
    Track {
        threshold,
        minimum,
        duration,
        key: own,
        confidence,
    }
}

// Whether the lists of estimates are equally long and there is room for their segments.
fn cut_fits(middles: usize, numbers: usize, certainties: usize, room: usize) -> bool
    ensures { result ≡ cut_fits middles numbers certainties room }
{
    (middles == numbers)
        & (certainties == numbers)
        & (numbers <= room)
        & (1 <= room)
        & (numbers < 4_294_967_296)
}

// The segments of all estimates; nothing where they do not fit or a key is above 23.
#[unsafe(no_mangle)]
pub extern "C" fn probe_cut(
    threshold: f32,
    minimum: f64,
    duration: f64,
    key: u8,
    confidence: f32,
    middles: &[f64],
    numbers: &[u8],
    certainties: &[f32],
    starts: &mut [f64],
    ends: &mut [f64],
    keys: &mut [u8],
    confidences: &mut [f32],
    counts: &mut [u32],
) -> usize
    ensures { filled_rows result (lent_segments starts.new ends.new keys.new confidences.new counts.new) ≡ probed_cut (track_of threshold minimum duration key confidence) (lent_columns middles.now numbers.now certainties.now) (lent_segments starts.old ends.old keys.old confidences.old counts.old) }
{
    let found = numbers.len();
    let room = segment_room(starts, ends, keys, confidences, counts);
    if !cut_fits(middles.len(), found, certainties.len(), room) {
        return 0;
    }
    if !all_numbers(numbers) {
        return 0;
    }
    let track = track_of(threshold, minimum, duration, key, confidence);
    let columns = LentColumns {
        centres: middles,
        keys: numbers,
        confidences: certainties,
    };
    let mut rows = LentSegments {
        starts,
        ends,
        keys,
        confidences,
        counts,
    };
    fill_segments(track, found, columns, &mut rows)
}
