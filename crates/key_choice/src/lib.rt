// The key that the scores tell: first and second place, the relative key, the confidence.
#![tactic(auto)]

pub mod classify;
pub mod places;
