// Whole analyses, record by record.
ghost use Rattle.std.specs.Prelude.{◌≡◌, ◌+◌, ◌≤◌, length};
ghost use Rattle.calls.specs.Call.{given};
ghost use Rattle.analysis.specs.Analyse.{analysed};
ghost use Rattle.stored_analyses.specs.Outcome.{same_outcome};
ghost use Rattle.replayed_analyses.specs.Analyses.{blank, agrees, records_in, differing};

use analysis::analyse::analyse;
use calls::{Settings, SheetHead};
use stored_analyses::outcome::outcome_agrees;
use stored_analyses::stored::{head_at, read_numbers, read_values, settings_at};

// Whether the call answers and leaves what the record says.
fn call_agrees(
    bytes: &[u8],
    start: usize,
    settings: Settings,
    head: SheetHead,
    samples: &[f32],
    window: &[f32],
    coefficients: &[f32],
    weights: &[f32],
    lengths: &[u32],
    qcoefficients: &[f32],
    qwindows: &[f32],
) -> bool
    requires { start + 2424 ≤ length bytes.now }
    ensures { result ≡ same_outcome bytes.now start (analysed (given settings head samples.now window.now coefficients.now weights.now lengths.now qcoefficients.now qwindows.now) blank) }
{
    let mut centres = [0.0; 8];
    let mut values = [[0.0; 12]; 8];
    let mut energies = [0.0; 8];
    let mut work = [0.0; 8];
    let mut middles = [0.0; 5];
    let mut numbers = [0; 5];
    let mut certainties = [0.0; 5];
    let mut shapeless = [0; 5];
    let mut starts = [0.0; 5];
    let mut ends = [0.0; 5];
    let mut keys = [0; 5];
    let mut confidences = [0.0; 5];
    let mut counts = [0; 5];
    let answer = analyse(
        settings,
        head,
        samples,
        window,
        coefficients,
        weights,
        lengths,
        qcoefficients,
        qwindows,
        &mut centres,
        &mut values,
        &mut energies,
        &mut work,
        &mut middles,
        &mut numbers,
        &mut certainties,
        &mut shapeless,
        &mut starts,
        &mut ends,
        &mut keys,
        &mut confidences,
        &mut counts,
    );
    outcome_agrees(
        bytes,
        start,
        answer,
        &centres,
        &values,
        &energies,
        &work,
        &middles,
        &numbers,
        &certainties,
        &shapeless,
        &starts,
        &ends,
        &keys,
        &confidences,
        &counts,
    )
}

// Whether the record that starts at `start` tells what an analysis answers and leaves.
fn record_agrees(bytes: &[u8], start: usize) -> bool
    requires { (3648 ≤ start) × (start + 2424 ≤ length bytes.now) }
    ensures { result ≡ agrees bytes.now start }
{
    let settings = settings_at(bytes, start);
    let head = head_at(bytes, 0);
    let mut samples = [0.0; 384];
    let mut window = [0.0; 32];
    let mut coefficients = [0.0; 14];
    let mut weights = [0.0; 14];
    let mut lengths = [0; 14];
    let mut qcoefficients = [0.0; 14];
    let mut qwindows = [0.0; 820];
    read_values(bytes, start + 44, &mut samples);
    read_values(bytes, 16, &mut window);
    read_values(bytes, 144, &mut coefficients);
    read_values(bytes, 200, &mut weights);
    read_numbers(bytes, 256, &mut lengths);
    read_values(bytes, 312, &mut qcoefficients);
    read_values(bytes, 368, &mut qwindows);
    call_agrees(
        bytes,
        start,
        settings,
        head,
        &samples,
        &window,
        &coefficients,
        &weights,
        &lengths,
        &qcoefficients,
        &qwindows,
    )
}

// How many records stand behind the sheet.
pub fn count_analyses(bytes: &[u8]) -> usize
    ensures { result ≡ records_in bytes.now }
{
    if bytes.len() < 3648 {
        return 0;
    }
    (bytes.len() - 3648) / 2424
}

// How many of them say something else.
pub fn count_differing_analyses(bytes: &[u8]) -> usize
    ensures { result ≡ differing bytes.now }
{
    let count = count_analyses(bytes);
    let mut differ = 0;
    for n in 0..count {
        if !record_agrees(bytes, 3648 + n * 2424) {
            differ += 1;
        }
    }
    differ
}
