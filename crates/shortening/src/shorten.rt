// Shortening: while several segments are left, the first that is shorter than the minimum joins a neighbour.
// No segment before the first short one is short, so joining begins there and the search is done once: after that, rows before a gap are settled but
// perhaps for the last, and rows behind it are unread.
ghost use Rattle.std.specs.Prelude.{◌≡◌, ◌+◌, ◌-◌, ◌^◌, ◌<◌, ◌≤◌, length};
ghost use Rattle.timeline.specs.inside.Estimates.{Numbered};
ghost use Rattle.timeline.specs.Segments.{segments_in};
ghost use Rattle.timeline.specs.Counts.{total_windows};
ghost use Rattle.timeline.specs.inside.Lent.{segments_lent, SameSegments};
ghost use Rattle.timeline.specs.inside.Segments.{Room, filled_rows};
ghost use Rattle.shortening.specs.inside.Settled.{settled};
ghost use Rattle.shortening.specs.inside.Lengths.{first_short_in, joins_back};
ghost use Rattle.shortening.specs.inside.Gap.{JoinableRows, joined_rows, taken_in, emptied_rows};

use timeline::segment::Segment;
use timeline::segment_rows::LentSegments;

// Where the first short segment stands: the count where none is short.
fn first_short(least: f64, count: usize, rows: &LentSegments) -> usize
    requires { (count ≤ length rows.now.starts.now) × (count ≤ length rows.now.ends.now) }
    ensures { result ≡ first_short_in least rows.now.starts.now rows.now.ends.now count }
{
    let mut i = 0;
    loop {
        if i >= count {
            break count;
        }
        if rows.is_short(least, i) {
            break i;
        }
        i += 1;
    }
}

// Whether the last of the first `done` segments is short and joins the one before it; `next` is the row of the one behind it.
fn joins_back(least: f64, done: usize, next: usize, count: usize, rows: &LentSegments) -> bool
    requires { (0 < done) × (done ≤ next) × (next ≤ count) × (count ≤ length rows.now.starts.now) × (count ≤ length rows.now.ends.now) }
    ensures { result ≡ joins_back least done next count rows.now.starts.now rows.now.ends.now }
{
    let last = done - 1;
    if !rows.is_short(least, last) {
        return false;
    }
    if last == 0 {
        return false;
    }
    if next == count {
        return true;
    }
    let earlier = rows.seconds(last - 1);
    let later = rows.seconds(next);
    later <= earlier
}

// The segments in the rows p and p + 1 become one, in row p.
fn join_rows(p: usize, rows: &mut LentSegments)
    requires { Room (segments_lent rows.old) (p + 2) × JoinableRows p (p + 1) (segments_lent rows.old) }
    ensures same_slices { SameSegments rows.old rows.new }
    ensures joined { segments_lent rows.new ≡ joined_rows p (segments_lent rows.old) }
{
    let earlier = rows.at(p);
    let later = rows.at(p + 1);
    rows.put(p, earlier.joined(later));
}

// The segment in row `next` joins the last of the first `done` where that is short, and else stands behind it; returns how many there are then.
fn take_in(least: f64, done: usize, next: usize, rows: &mut LentSegments) -> usize
    requires { (0 < done) × (done ≤ next) × Room (segments_lent rows.old) (next + 1) × JoinableRows (done - 1) next (segments_lent rows.old) }
    ensures same_slices { SameSegments rows.old rows.new }
    ensures taken { filled_rows result (segments_lent rows.new) ≡ taken_in least done next (segments_lent rows.old) }
{
    let last = done - 1;
    let current = rows.at(last);
    let following = rows.at(next);
    if current.is_short(least) {
        rows.put(last, current.joined(following));
        return done;
    }
    rows.put(done, following);
    done + 1
}

// The rows from `from` up to `count` are emptied.
fn empty_rows(from: usize, count: usize, rows: &mut LentSegments)
    requires { (from ≤ count) × Room (segments_lent rows.old) count }
    ensures same_slices { SameSegments rows.old rows.new }
    ensures emptied { segments_lent rows.new ≡ emptied_rows from count (segments_lent rows.old) }
{
    for i in from..count {
        rows.put(i, Segment::emptied());
    }
}

// The Rust's `merge_short_segments`: joins in the first `count` rows, and returns how many segments are left.
pub fn shorten_segments(least: f64, count: usize, rows: &mut LentSegments) -> usize
    requires { Room (segments_lent rows.old) count × Numbered rows.old.keys.now count × (total_windows (segments_in (segments_lent rows.old) count) < 2 ^ 32) }
    ensures same_slices { SameSegments rows.old rows.new }
    ensures filled { filled_rows result (segments_lent rows.new) ≡ settled least (segments_in (segments_lent rows.old) count) (segments_lent rows.old) }
{
    let first = first_short(least, count, rows);
    // none is short: the rows stay as they are
    if first == count {
        return count;
    }
    let mut done = first + 1;
    let mut next = first + 1;
    loop {
        if joins_back(least, done, next, count, rows) {
            done -= 1;
            join_rows(done - 1, rows);
        } else {
            if next == count {
                break;
            }
            done = take_in(least, done, next, rows);
            next += 1;
        }
    }
    empty_rows(done, count, rows);
    done
}
