// Values that can't be the one at a rank go: a sample gives two bounds around it, and counting shows whether it lies between them.
ghost use Rattle.std.specs.Prelude.{◌≡◌, ◌≤◌, T, length, take, filter};
ghost use Rattle.std.specs.Float.{binary32};
ghost use Rattle.std.specs.Float.Ieee.{fits};
ghost use Rattle.ranks.specs.inside.Search.{SoughtIn};
ghost use Rattle.ranks.specs.inside.Narrow.{count_under, divides, within, Counted, Narrowed};

use crate::values::value_of_key;
use numbers::floats::Floating;
use numbers::single::from_pattern;
use std::array;

// The value at `rank` of the first `left` values is sought; its order key is one of the `width` keys from `low` on.
#[derive(Clone, Copy)]
pub struct Sought {
    pub left: usize,
    pub rank: usize,
    pub low: u64,
    pub width: u64,
}

// Two bounds, by which `<` parts values as the total order does.
#[derive(Clone, Copy)]
pub struct Pivots {
    pub low: f32,
    pub high: f32,
    ghost low_divides: { T (divides low) },
    ghost high_divides: { T (divides high) },
}

// Two bounds, with how many values are below each.
#[derive(Clone, Copy)]
pub struct Stretch {
    pub pivots: Pivots,
    pub below: usize,
    pub upto: usize,
}

// How many values are below the bound.
fn count_under(values: &[f32], bound: f32) -> usize
    requires { length values.now ≤ 0xffff_ffff }
    ensures under { result ≡ count_under values.now bound }
    ensures held { T (fits binary32 bound) }
{
    let mut counted = 0u32;
    for value in values {
        if *value < bound {
            counted += 1;
        }
    }
    counted as usize
}

// x, or the other where x is a zero or a NaN, by which `<` does not part values as the total order does.
fn dividing(x: f32, other: f32) -> f32
    requires { T (divides other) }
    ensures { T (divides result) }
{
    if (x < 0.0) | (0.0 < x) {
        return x;
    }
    other
}

// A bound just above x.
fn just_above(x: f32) -> f32
    ensures { T (divides result) }
{
    let key = x.order_key();
    if key < 0xff80_0000 {
        return dividing(value_of_key(key + 1), from_pattern(1));
    }
    from_pattern(0x7f80_0000)
}

// Bounds so many places below and above a place in the sorted sample. No proof leans on how close they are.
fn pivots_in(sample: &[f32; 32], place: usize, spread: usize) -> Pivots
    requires { (place ≤ 32) × (spread ≤ 32) }
{
    let first = place.saturating_sub(spread);
    let last = place + spread;
    let mut low = from_pattern(0xff80_0000);
    let mut high = low;
    for value in sample {
        let before = count_under(sample, *value);
        if (before <= first) & (low < *value) {
            low = *value;
        }
        if (before <= last) & (high < *value) {
            high = *value;
        }
    }
    Pivots {
        low: dividing(low, from_pattern(0x8000_0001)),
        high: just_above(high),
    }
}

// Bounds around the value at `rank`, from 32 of the values.
fn pivots_around(values: &[f32], rank: usize, spread: usize) -> Pivots
    requires { (32 ≤ length values.now) × (spread ≤ 32) }
{
    let step = values.len() / 32;
    let sample = array::from_fn(|k| values[k * step]);
    pivots_in(&sample, (rank / step).min(32), spread)
}

// Two bounds with their counts.
fn counted(values: &[f32], pivots: Pivots) -> Stretch
    requires { length values.now ≤ 0xffff_ffff }
    ensures { Counted values.now result.pivots.low result.pivots.high result.below result.upto }
{
    Stretch {
        pivots,
        below: count_under(values, pivots.low),
        upto: count_under(values, pivots.high),
    }
}

// The bounds, or those of the values below or above them where the rank lies there.
fn stretch_around(values: &[f32], rank: usize, pivots: Pivots) -> Stretch
    requires { length values.now ≤ 0xffff_ffff }
    ensures { Counted values.now result.pivots.low result.pivots.high result.below result.upto }
{
    let between = counted(values, pivots);
    if rank < between.below {
        let low = from_pattern(0xff80_0000);
        return counted(
            values,
            Pivots {
                low,
                high: pivots.low,
            },
        );
    }
    if between.upto <= rank {
        let high = from_pattern(0x7f80_0000);
        return counted(
            values,
            Pivots {
                low: pivots.high,
                high,
            },
        );
    }
    between
}

// The values that lie within the bounds move to the front; how many they are.
fn keep_within(values: &mut [f32], pivots: Pivots) -> usize
    ensures many { result ≡ length (filter (within pivots.low pivots.high) values.old) }
    ensures front { take result values.new ≡ filter (within pivots.low pivots.high) values.old }
{
    let mut kept = 0;
    for i in 0..values.len() {
        let value = values[i];
        values[kept] = value;
        if (value < pivots.high) & !(value < pivots.low) {
            kept += 1;
        }
    }
    kept
}

// How far apart the bounds are, in places of the sample: at last they are those of one value.
pub fn spread_at(turn: usize) -> usize
    ensures { result ≤ 32 }
{
    if turn < 3 { 4 } else { 0 }
}

// Where more than a few values are left, those outside two bounds around the one sought go.
pub fn narrow(work: &mut [f32], sought: Sought, spread: usize) -> Sought
    requires sought { SoughtIn work.old sought.left sought.rank sought.low sought.width }
    requires spread { spread ≤ 32 }
    ensures sought { SoughtIn work.new result.left result.rank result.low result.width }
    ensures narrowed { Narrowed work.old sought.left sought.rank work.new result.left result.rank }
{
    if sought.left < 64 || sought.left > 0xffff_ffff || sought.width < 2 {
        return sought;
    }
    let values = &mut work[..sought.left];
    let pivots = pivots_around(values, sought.rank, spread);
    let stretch = stretch_around(values, sought.rank, pivots);
    if sought.rank < stretch.below || stretch.upto <= sought.rank {
        return sought;
    }
    let left = keep_within(values, stretch.pivots);
    let low = stretch.pivots.low.order_key() as u64;
    Sought {
        left,
        rank: sought.rank - stretch.below,
        low,
        width: stretch.pivots.high.order_key() as u64 - low,
    }
}
