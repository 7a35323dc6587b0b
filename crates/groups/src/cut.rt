// Estimates cut into groups, and each group made a segment.
ghost use Rattle.std.specs.Prelude.{◌≡◌, ◌+◌, ◌^◌, ◌<◌, ◌≤◌, length};
ghost use Rattle.numbers.specs.Sum.{sum_of};
ghost use Rattle.timeline.specs.inside.Estimates.{Numbered, Found, estimates_in};
ghost use Rattle.timeline.specs.inside.Lent.{columns_lent, segments_lent, SameSegments};
ghost use Rattle.timeline.specs.inside.Segments.{Room, put_segment, filled_rows, standing};
ghost use Rattle.groups.specs.Groups.{mean_confidence, groups_of};
ghost use Rattle.groups.specs.inside.Written.{grouped, group_in};

use majorities::majority::majority_key;
use splits::split::{border_in_rows, is_split};
use timeline::columns::LentColumns;
use timeline::segment::Segment;
use timeline::segment_rows::LentSegments;
use timeline::stored::stored_key;

// The estimates from `from` up to `to`, and the time that they stand for.
#[derive(Clone, Copy)]
struct Group {
    from: usize,
    to: usize,
    start: f64,
    end: f64,
}

// The confidences summed from -0.
fn sum_confidences(confidences: &[f32]) -> f32
    ensures { result ≡ sum_of (length confidences.now) confidences.now }
{
    let mut sum = -0.0;
    for confidence in confidences {
        sum += *confidence;
    }
    sum
}

// The mean of the confidences.
fn mean_confidence(confidences: &[f32]) -> f32
    requires { length confidences.now < 2 ^ 32 }
    ensures { result ≡ mean_confidence confidences.now }
{
    let count = confidences.len();
    sum_confidences(confidences) / std::num::nearest_u32_to_f32(count as u32)
}

// The segment of a group.
fn segment_of_group(start: f64, end: f64, numbers: &[u8], confidences: &[f32]) -> Segment
    requires { Numbered numbers.now (length numbers.now) × (length confidences.now < 2 ^ 32) }
    ensures { result ≡ grouped start end numbers.now confidences.now }
{
    Segment {
        start,
        end,
        key: stored_key(majority_key(numbers)),
        confidence: mean_confidence(confidences),
        windows: confidences.len() as u32,
    }
}

// The segment of a group goes into place n.
fn write_group(group: Group, columns: LentColumns, n: usize, rows: &mut LentSegments)
    requires { (group.from < group.to) × (group.to ≤ length columns.keys.now) × (group.to ≤ length columns.confidences.now) × (group.to < 2 ^ 32) × Numbered columns.keys.now group.to × Room (segments_lent rows.old) (n + 1) }
    ensures same_slices { SameSegments rows.old rows.new }
    ensures written { segments_lent rows.new ≡ put_segment (group_in group columns.entry.keys.now columns.entry.confidences.now) n (segments_lent rows.old) }
{
    let Group {
        from,
        to,
        start,
        end,
    } = group;
    let numbers = &columns.keys[from..to];
    let confidences = &columns.confidences[from..to];
    rows.put(n, segment_of_group(start, end, numbers, confidences));
}

// Every group in turn, into the lent rows from the front; returns how many there are.
pub fn cut_groups(
    threshold: f32,
    duration: f64,
    found: usize,
    columns: LentColumns,
    rows: &mut LentSegments,
) -> usize
    requires { (0 < found) × Found (columns_lent columns) found × Room (segments_lent rows.old) found }
    ensures same_slices { SameSegments rows.old rows.new }
    ensures filled { filled_rows result (segments_lent rows.new) ≡ standing (groups_of threshold duration (estimates_in (columns_lent columns.entry) found)) (segments_lent rows.old) }
{
    let mut from = 0;
    let mut start = 0.0;
    let mut n = 0;
    for j in 0..found - 1 {
        let next = j + 1;
        if is_split(threshold, j, next, columns) {
            let end = border_in_rows(j, next, columns);
            let group = Group {
                from,
                to: next,
                start,
                end,
            };
            write_group(group, columns, n, rows);
            from = next;
            start = end;
            n += 1;
        }
    }
    let group = Group {
        from,
        to: found,
        start,
        end: duration,
    };
    write_group(group, columns, n, rows);
    n + 1
}
