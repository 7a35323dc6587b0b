// What a call lends to be read: a table sheet, and the track beside it.
use crate::{Settings, SheetHead};

// A table sheet: its head, the frame window, the Goertzel rows and the constant-Q rows, whose windows are joined end to end.
#[derive(Clone, Copy)]
pub struct LentSheet<'a> {
    pub head: SheetHead,
    pub window: &'a [f32],
    pub goertzel_coefficients: &'a [f32],
    pub goertzel_weights: &'a [f32],
    pub constant_q_lengths: &'a [u32],
    pub constant_q_coefficients: &'a [f32],
    pub constant_q_windows: &'a [f32],
}

// All that a call reads.
#[derive(Clone, Copy)]
pub struct LentCall<'a> {
    pub settings: Settings,
    pub samples: &'a [f32],
    pub sheet: LentSheet<'a>,
}
