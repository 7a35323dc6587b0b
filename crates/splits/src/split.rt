// Whether a window starts a group, and the border between two windows, from the columns that tell it.
ghost use Rattle.std.specs.Prelude.{◌≡◌, ◌<◌, length};
ghost use Rattle.splits.specs.inside.Columns.{splits_in, border_in};

use timeline::columns::LentColumns;
use timeline::stored::stored_key;

// Whether window `next` starts a group: another key than window `before`, with confidence enough.
pub fn is_split(threshold: f32, before: usize, next: usize, columns: LentColumns) -> bool
    requires { (before < next) × (next < length columns.keys.now) × (next < length columns.confidences.now) }
    ensures { result ≡ splits_in threshold columns.entry.keys.now columns.entry.confidences.now before next }
{
    let key = stored_key(columns.keys[next]);
    let other = stored_key(columns.keys[before]);
    (key != other) & (threshold <= columns.confidences[next])
}

// Midway between the centres of two windows.
pub fn border_in_rows(before: usize, next: usize, columns: LentColumns) -> f64
    requires { (before < next) × (next < length columns.centres.now) }
    ensures { result ≡ border_in columns.entry.centres.now before next }
{
    (columns.centres[before] + columns.centres[next]) / 2.0
}
