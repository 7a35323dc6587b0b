// Segments in a lent slice of records: two join, the later ones move down, and short ones join their neighbours.
// `record_at` and `put_record` alone reach into the slice; what is done to a record is done by value.
#![tactic(auto)]

ghost use Rattle.std.specs.Prelude.{◌≡◌, ◌+◌, ◌-◌, ◌^◌, ◌<◌, ◌≤◌, length, set, take};
ghost use Rattle.timeline.specs.Segments.{emptied, segment_at};
ghost use Rattle.timeline.specs.Counts.{total_windows};
ghost use Rattle.shortening.specs.Shorten.{first_short, keeper};
ghost use Rattle.records.specs.Records.{left, shortened_in};
ghost use Rattle.records.specs.inside.Steps.{moved_down, copied_down, JoinableAt, joined_at, joined_records, place_after, kept_place};

use timeline::segment::Segment;

// Record i.
pub fn record_at(records: &[Segment], i: usize) -> Segment
    requires { i < length records.now }
    ensures { result ≡ segment_at records.now i }
{
    records[i]
}

// A segment becomes record i.
pub fn put_record(records: &mut [Segment], i: usize, segment: Segment)
    requires { i < length records.old }
    ensures { records.new ≡ set records.old i segment }
{
    records[i] = segment;
}

// Record i + 1 is copied over record i.
fn copy_down(records: &mut [Segment], i: usize)
    requires { i + 1 < length records.old }
    ensures { records.new ≡ copied_down i records.old }
{
    let next = record_at(records, i + 1);
    put_record(records, i, next);
}

// The records behind record p move down by one, as far as the last of `count`, which is emptied.
pub fn close_gap(records: &mut [Segment], p: usize, count: usize)
    requires { (p < count) × (count ≤ length records.old) }
    ensures { records.new ≡ moved_down p count emptied records.old }
{
    let last = count - 1;
    for j in p..last {
        copy_down(records, j);
    }
    put_record(records, last, Segment::emptied());
}

// Record p takes in the one behind it.
pub fn join_at(records: &mut [Segment], p: usize)
    requires { (p + 1 < length records.old) × JoinableAt p records.old }
    ensures { records.new ≡ joined_at p records.old }
{
    let earlier = record_at(records, p);
    let later = record_at(records, p + 1);
    put_record(records, p, earlier.joined(later));
}

// Of the first `count` records, p and p + 1 become one.
pub fn join_records(records: &mut [Segment], p: usize, count: usize)
    requires { (p + 1 < count) × (count ≤ length records.old) × JoinableAt p records.old }
    ensures { records.new ≡ joined_records p count records.old }
{
    join_at(records, p);
    close_gap(records, p + 1, count);
}

// Where the first short one of `count` records stands: the count where none is short.
pub fn first_short(records: &[Segment], least: f64, count: usize) -> usize
    requires { count ≤ length records.now }
    ensures { result ≡ first_short least (take count records.now) }
{
    let mut i = 0;
    loop {
        if i >= count {
            break count;
        }
        if record_at(records, i).is_short(least) {
            break i;
        }
        i += 1;
    }
}

// The place before i: i itself where it is the first.
fn place_before(i: usize) -> usize
    ensures { result ≡ i - 1 }
{
    i.saturating_sub(1)
}

// The place behind i among `count`: i itself where it is the last.
fn place_after(i: usize, count: usize) -> usize
    ensures { result ≡ place_after i count }
{
    if i < count.saturating_sub(1) {
        i + 1
    } else {
        i
    }
}

// The earlier of the two that join where i is short, by its neighbours.
fn kept_place(i: usize, before: usize, after: usize, earlier: Segment, later: Segment) -> usize
    ensures { result ≡ kept_place i before after earlier later }
{
    if before == i {
        return i;
    }
    if after == i {
        return before;
    }
    if later.seconds() <= earlier.seconds() {
        before
    } else {
        i
    }
}

// The earlier of the two that join where record i is short.
pub fn keeper_of(records: &[Segment], i: usize, count: usize) -> usize
    requires { (i < count) × (count ≤ length records.now) }
    ensures { result ≡ keeper (take count records.now) i }
{
    let before = place_before(i);
    let after = place_after(i, count);
    let earlier = record_at(records, before);
    let later = record_at(records, after);
    kept_place(i, before, after, earlier, later)
}

// The Rust's `merge_short_segments`: joins among the first `count` records, and returns how many segments are left.
pub fn shorten_records(records: &mut [Segment], least: f64, count: usize) -> usize
    requires { (count ≤ length records.old) × (total_windows (take count records.old) < 2 ^ 32) }
    ensures { left result records.new ≡ shortened_in least count records.old }
{
    let mut n = count;
    while n > 1 {
        let i = first_short(records, least, n);
        if i == n {
            return n;
        }
        let p = keeper_of(records, i, n);
        join_records(records, p, n);
        n -= 1;
    }
    n
}
