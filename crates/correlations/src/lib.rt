// How well a chroma follows a key profile, from each of the twelve roots up.
#![tactic(auto)]

pub mod correlation;
pub mod deviations;
pub mod lanes;
