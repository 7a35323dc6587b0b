// What a call is asked, what it lends to be read, and what it lends to be written.
#![tactic(auto)]

pub mod rows;
pub mod sheet;

// The longest track in seconds.
pub const LONGEST_TRACK: usize = 86_400;

// The track's rate, then the Rust's `KeyConfig`, then the engine: 0 all rows side by side, 1 four rows at a time.
#[repr(C)]
#[derive(Clone, Copy)]
pub struct Settings {
    pub rate: u32,
    pub frame_size: usize,
    pub hop_size: usize,
    pub minimum_midi_note: u8,
    pub maximum_midi_note: u8,
    pub local_window_seconds: f32,
    pub local_hop_seconds: f32,
    pub alternate_coverage_threshold: f32,
    pub segment_confidence_threshold: f32,
    pub minimum_segment_seconds: f32,
    pub engine: u32,
}

// What a table sheet states about itself.
#[repr(C)]
#[derive(Clone, Copy)]
pub struct SheetHead {
    pub rate: u32,
    pub minimum_midi_note: u8,
    pub maximum_midi_note: u8,
    pub frame_size: usize,
}
