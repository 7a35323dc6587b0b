// One frame of a track: its energy, its chroma from both filters, and its row.
#![tactic(auto)]

pub mod blend;
pub mod frame;
