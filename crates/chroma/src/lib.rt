// The tuning of a track, and the shift of a chroma by it.
#![tactic(auto)]

pub mod shift;
pub mod tuning;
