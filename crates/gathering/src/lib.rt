// The loud frames of a window: which they are, and their chromas summed.
#![tactic(auto)]

pub mod ahead;
pub mod frames;
pub mod gather;
