// The table sheet's checks, and the filters over its lists.
ghost use Rattle.std.specs.Prelude.{◌≡◌};
ghost use Rattle.calls.specs.Call.{lent_sheet};
ghost use Rattle.sheets.specs.Sheet.{matches_call, well_formed};
ghost use Rattle.probe.specs.Filters.{reaches_to, rows_fit, rows_held, magnitudes_outcome, probed_magnitudes, probed_goertzel, probed_constant_q};

use crate::chroma_leaves::Twelve;
use calls::sheet::LentSheet;
use calls::{Settings, SheetHead};
use constant_q::chroma::constant_q_chroma;
use goertzel::goertzel_chroma;
use magnitudes::write_magnitudes;

#[unsafe(no_mangle)]
pub extern "C" fn probe_sheet_matches(settings: Settings, head: SheetHead) -> bool
    ensures { result ≡ matches_call settings head }
{
    sheets::matches(settings, head)
}

#[unsafe(no_mangle)]
pub extern "C" fn probe_well_formed<'a>(
    head: SheetHead,
    window: &'a [f32],
    coefficients: &'a [f32],
    weights: &'a [f32],
    lengths: &'a [u32],
    qcoefficients: &'a [f32],
    qwindows: &'a [f32],
) -> bool
    ensures { result ≡ well_formed (lent_sheet head window.now coefficients.now weights.now lengths.now qcoefficients.now qwindows.now) }
{
    sheets::well_formed(LentSheet {
        head,
        window,
        goertzel_coefficients: coefficients,
        goertzel_weights: weights,
        constant_q_lengths: lengths,
        constant_q_coefficients: qcoefficients,
        constant_q_windows: qwindows,
    })
}

// Whether so many values from a start on are there.
fn reaches(start: usize, size: usize, samples: usize) -> bool
    ensures { result ≡ reaches_to start size samples }
{
    if samples < start {
        return false;
    }
    size <= samples - start
}

// Whether two lists of rows are equally long, and no more than 256.
fn rows_fit(rows: usize, others: usize) -> bool
    ensures { result ≡ rows_fit rows others }
{
    (rows == others) & (rows <= 256)
}

// Whether so many rows are no more than 256, and have places.
fn rows_held(rows: usize, places: usize) -> bool
    ensures { result ≡ rows_held rows places }
{
    (rows <= 256) & (rows <= places)
}

// The magnitudes of all rows, from the front of `room`; false, and nothing written, where frame or room do not fit.
#[unsafe(no_mangle)]
pub extern "C" fn probe_magnitudes(
    engine: u32,
    samples: &[f32],
    start: usize,
    window: &[f32],
    coefficients: &[f32],
    room: &mut [f32],
) -> bool
    ensures { magnitudes_outcome result room.new ≡ probed_magnitudes window.now coefficients.now samples.now start room.old }
{
    if !(reaches(start, window.len(), samples.len()) & rows_held(coefficients.len(), room.len())) {
        return false;
    }
    write_magnitudes(engine, samples, start, window, coefficients, room);
    true
}

// The Goertzel chroma of a frame, and zeros where the lists or the frame do not fit.
#[unsafe(no_mangle)]
pub extern "C" fn probe_goertzel(
    engine: u32,
    lowest: u8,
    samples: &[f32],
    start: usize,
    window: &[f32],
    coefficients: &[f32],
    weights: &[f32],
) -> Twelve
    ensures { result.values ≡ probed_goertzel lowest window.now coefficients.now weights.now samples.now start }
{
    if !(reaches(start, window.len(), samples.len())
        & rows_fit(coefficients.len(), weights.len()))
    {
        return Twelve { values: [0.0; 12] };
    }
    let values = goertzel_chroma(
        engine,
        lowest,
        samples,
        start,
        window,
        coefficients,
        weights,
    );
    Twelve { values }
}

// The constant-Q chroma around a centre, and zeros where the lists or the centre do not fit.
#[unsafe(no_mangle)]
pub extern "C" fn probe_constant_q(
    lowest: u8,
    samples: &[f32],
    centre: usize,
    lengths: &[u32],
    coefficients: &[f32],
    windows: &[f32],
) -> Twelve
    ensures { result.values ≡ probed_constant_q lowest lengths.now coefficients.now windows.now samples.now centre }
{
    if !((centre <= samples.len()) & rows_fit(lengths.len(), coefficients.len())) {
        return Twelve { values: [0.0; 12] };
    }
    if sheets::joined_length(lengths) != windows.len() {
        return Twelve { values: [0.0; 12] };
    }
    let values = constant_q_chroma(lowest, samples, centre, lengths, coefficients, windows);
    Twelve { values }
}
