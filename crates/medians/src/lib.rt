// The median of f32 values by selection: those that a sample shows far from it go, then its order key is found bit by bit, by counting.
#![tactic(auto)]

ghost use Rattle.std.specs.Prelude.{◌≡◌, ◌/◌, ◌<◌, length, take, replicate};
ghost use Rattle.laws.specs.Values.{plus_zero};
ghost use Rattle.medians.specs.Median.{median_of};
ghost use Rattle.ranks.specs.inside.Search.{count_below, key_at_rank, SoughtIn};

use numbers::floats::Floating;
use ranks::narrowing::{Sought, narrow, spread_at};
use ranks::values::value_of_key;

// How many values have an order key below the bound.
fn count_below(values: &[f32], bound: u64) -> usize
    ensures { result ≡ count_below values.now bound }
{
    let mut counted = 0;
    for value in values {
        if (value.order_key() as u64) < bound {
            counted += 1;
        }
    }
    counted
}

// The order key of the value at a rank, where it is one of the `width` keys from `low` on: half of them go in a turn.
fn bisect(work: &[f32], sought: Sought) -> u32
    requires { SoughtIn work.now sought.left sought.rank sought.low sought.width }
    ensures { result ≡ key_at_rank (take sought.left work.now) sought.rank }
{
    let values = &work[..sought.left];
    let mut key = sought.low;
    let mut width = sought.width;
    while width > 1 {
        let half = width / 2;
        if count_below(values, key + half) <= sought.rank {
            key += half;
            width -= half;
        } else {
            width = half;
        }
    }
    key as u32
}

// The order key of the value at `rank` in total order; those that can't be it go.
fn find_key(work: &mut [f32], rank: usize) -> u32
    requires { rank < length work.old }
    ensures { result ≡ key_at_rank work.old rank }
{
    let mut sought = Sought {
        left: work.len(),
        rank,
        low: 0,
        width: 0x1_0000_0000,
    };
    for turn in 0..8 {
        sought = narrow(work, sought, spread_at(turn));
    }
    bisect(work, sought)
}

// The rank of the median: of two in the middle, the later one.
fn middle_rank(count: usize) -> usize
    requires { 0 < count }
    ensures { result ≡ count / 2 }
{
    count / 2
}

// The median of the values, which end as +0.
pub fn select(values: &mut [f32]) -> f32
    requires { 0 < length values.old }
    ensures median { result ≡ median_of values.old }
    ensures zeroed { values.new ≡ replicate (length values.old) plus_zero }
{
    let key = find_key(values, middle_rank(values.len()));
    values.fill(0.0);
    value_of_key(key)
}
