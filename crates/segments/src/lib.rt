// Segments: a track's estimates cut into groups, and short segments joined.
#![tactic(auto)]

pub mod fill;
pub mod track;
