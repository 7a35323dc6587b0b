// What a record asks: settings, samples and the sheet.
ghost use Rattle.std.specs.Prelude.{◌≡◌, ◌+◌, ◌*◌, ◌≤◌, length};
ghost use Rattle.stored_analyses.specs.Stored.{values_at, numbers_at, settings_at, head_at};

use calls::{Settings, SheetHead};
use replayed::{value_at, word_at};

// Fills the values from the patterns that start at `at`.
pub fn read_values(bytes: &[u8], at: usize, values: &mut [f32])
    requires { at + 4 * length values.old ≤ length bytes.now }
    ensures { values.new ≡ values_at bytes.now at (length values.old) }
{
    for i in 0..values.len() {
        values[i] = value_at(bytes, at + 4 * i);
    }
}

// Fills the numbers from those that start at `at`.
pub fn read_numbers(bytes: &[u8], at: usize, numbers: &mut [u32])
    requires { at + 4 * length numbers.old ≤ length bytes.now }
    ensures { numbers.new ≡ numbers_at bytes.now at (length numbers.old) }
{
    for i in 0..numbers.len() {
        numbers[i] = word_at(bytes, at + 4 * i);
    }
}

// The settings that start at `at`.
pub fn settings_at(bytes: &[u8], at: usize) -> Settings
    requires { at + 44 ≤ length bytes.now }
    ensures { result ≡ settings_at bytes.now at }
{
    Settings {
        rate: word_at(bytes, at),
        frame_size: word_at(bytes, at + 4) as usize,
        hop_size: word_at(bytes, at + 8) as usize,
        minimum_midi_note: (word_at(bytes, at + 12) % 256) as u8,
        maximum_midi_note: (word_at(bytes, at + 16) % 256) as u8,
        local_window_seconds: value_at(bytes, at + 20),
        local_hop_seconds: value_at(bytes, at + 24),
        alternate_coverage_threshold: value_at(bytes, at + 28),
        segment_confidence_threshold: value_at(bytes, at + 32),
        minimum_segment_seconds: value_at(bytes, at + 36),
        engine: word_at(bytes, at + 40),
    }
}

// The head of a sheet that starts at `at`.
pub fn head_at(bytes: &[u8], at: usize) -> SheetHead
    requires { at + 16 ≤ length bytes.now }
    ensures { result ≡ head_at bytes.now at }
{
    SheetHead {
        rate: word_at(bytes, at),
        minimum_midi_note: (word_at(bytes, at + 4) % 256) as u8,
        maximum_midi_note: (word_at(bytes, at + 8) % 256) as u8,
        frame_size: word_at(bytes, at + 12) as usize,
    }
}
