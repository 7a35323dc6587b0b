// Onset weights of the loud frames, and the twelve medians weighted by them.
#![tactic(auto)]

pub mod weighted;
pub mod weights;
