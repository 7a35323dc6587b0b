// The run over all frame positions: loud frames go into the lent rows, from the front.
ghost use Rattle.std.specs.Prelude.{◌≡◌, ◌<◌, length};
ghost use Rattle.calls.specs.Lent.{call_in, rows_in, SameFrameRows};
ghost use Rattle.calls.specs.Rows.{lent_rows};
ghost use Rattle.frames.specs.inside.Rows.{put, ran, run_of, Ready};

use blocks::stock::{Held, supply};
use calls::rows::FrameRows;
use calls::sheet::LentCall;
use one_frame::frame::{Row, frame_energy, frame_row, is_loud, is_whole};

// The first loud frame position whose row is not finite, and how many rows are before it.
#[derive(Clone, Copy, Debug, PartialEq, Eq)]
pub struct NotFinite {
    pub position: usize,
    pub count: usize,
}

// A row goes into place n of the lent rows.
fn put_row(rows: &mut FrameRows, n: usize, row: Row)
    requires { (n < length rows.old.centres.now) × (n < length rows.old.values.now) × (n < length rows.old.energies.now) }
    ensures same { SameFrameRows rows.old rows.new }
    ensures rows { rows_in rows.new ≡ put row n (rows_in rows.old) }
{
    let Row {
        centre,
        values,
        energy,
    } = row;
    rows.centres[n] = centre;
    rows.values[n] = values;
    rows.energies[n] = energy;
}

// Every frame position in turn, up to the first that is not finite; how many rows it wrote.
pub fn fill_rows(call: LentCall, positions: usize, rows: &mut FrameRows) -> Result<usize, NotFinite>
    requires { Ready (call_in call) (rows_in rows.old) positions }
    ensures same { SameFrameRows rows.old rows.new }
    ensures run { ran result (rows_in rows.new) ≡ run_of (call_in call.entry) positions (rows_in rows.old) }
{
    let frame = call.settings.frame_size;
    let hop = call.settings.hop_size;
    let sheet = call.sheet;
    let lowest = sheet.head.minimum_midi_note;
    let mut block = [[0.0; 12]; 8];
    let mut held = Held { first: 0, count: 0 };
    let mut count = 0;
    for position in 0..positions {
        let start = position * hop;
        let energy = frame_energy(call.samples, start, frame);
        if is_loud(energy) {
            let handed = supply(
                lowest,
                call.samples,
                frame / 2,
                hop,
                sheet.constant_q_lengths,
                sheet.constant_q_coefficients,
                sheet.constant_q_windows,
                positions,
                position,
                held,
                &mut block,
            );
            held = handed.held;
            let row = frame_row(
                call.settings,
                lowest,
                call.samples,
                sheet.window,
                sheet.goertzel_coefficients,
                sheet.goertzel_weights,
                start,
                energy,
                handed.chroma,
            );
            if !is_whole(row) {
                return Err(NotFinite { position, count });
            }
            put_row(rows, count, row);
            count += 1;
        }
    }
    Ok(count)
}

// The same over rows that are lent as three slices.
pub fn fill_slices<'b>(
    call: LentCall,
    positions: usize,
    centres: &'b mut [f64],
    values: &'b mut [[f32; 12]],
    energies: &'b mut [f32],
) -> Result<usize, NotFinite>
    requires { Ready (call_in call) (lent_rows centres.old values.old energies.old) positions }
    ensures { ran result (lent_rows centres.new values.new energies.new) ≡ run_of (call_in call.entry) positions (lent_rows centres.old values.old energies.old) }
{
    let mut rows = FrameRows {
        centres,
        values,
        energies,
    };
    fill_rows(call, positions, &mut rows)
}
