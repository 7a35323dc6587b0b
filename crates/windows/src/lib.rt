// Windows of time over the loud frames, and the key that each of them tells.
#![tactic(auto)]

pub mod estimate;
pub mod run;
pub mod span;
