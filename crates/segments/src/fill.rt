// The segments of a track, from its estimates into lent rows.
ghost use Rattle.std.specs.Prelude.{◌≡◌};
ghost use Rattle.timeline.specs.inside.Estimates.{Found, estimates_in};
ghost use Rattle.timeline.specs.inside.Lent.{columns_lent, segments_lent, SameSegments};
ghost use Rattle.timeline.specs.inside.Segments.{Room, filled_rows, standing};
ghost use Rattle.segments.specs.inside.Fill.{filled_of, cut_of};

use groups::cut::cut_groups;
use keys::Key;
use shortening::shorten::shorten_segments;
use timeline::columns::LentColumns;
use timeline::segment::Segment;
use timeline::segment_rows::LentSegments;

// What segments rest on beside estimates: a split's threshold, the least length, the track's duration, key, confidence.
#[derive(Clone, Copy)]
pub struct Track {
    pub threshold: f32,
    pub minimum: f64,
    pub duration: f64,
    pub key: Key,
    pub confidence: f32,
}

// The segments before shortening: one over the whole track where there is no estimate.
fn cut_track(track: Track, found: usize, columns: LentColumns, rows: &mut LentSegments) -> usize
    requires { Found (columns_lent columns) found × Room (segments_lent rows.old) found × Room (segments_lent rows.old) 1 }
    ensures same_slices { SameSegments rows.old rows.new }
    ensures cut { filled_rows result (segments_lent rows.new) ≡ standing (cut_of track (estimates_in (columns_lent columns.entry) found)) (segments_lent rows.old) }
{
    if found > 0 {
        return cut_groups(track.threshold, track.duration, found, columns, rows);
    }
    let whole = Segment {
        start: 0.0,
        end: track.duration,
        key: track.key,
        confidence: track.confidence,
        windows: 0,
    };
    rows.put(0, whole);
    1
}

// The Rust's `estimate_segments` from its estimates on; returns how many segments there are.
pub fn fill_segments(
    track: Track,
    found: usize,
    columns: LentColumns,
    rows: &mut LentSegments,
) -> usize
    requires { Found (columns_lent columns) found × Room (segments_lent rows.old) found × Room (segments_lent rows.old) 1 }
    ensures same_slices { SameSegments rows.old rows.new }
    ensures filled { filled_rows result (segments_lent rows.new) ≡ filled_of track (estimates_in (columns_lent columns.entry) found) (segments_lent rows.old) }
{
    let count = cut_track(track, found, columns, rows);
    shorten_segments(track.minimum, count, rows)
}
