// From the loud frames in their rows to the answer of an analysis.
#![tactic(auto)]

pub mod loud;
