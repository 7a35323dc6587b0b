// What is done to segments, exported for the comparison with the Rust; never shipped.
#![tactic(auto)]

pub mod segments_of_frames;
pub mod segments_of_rows;
