// Stored whole analyses: read from numbers, and held against an outcome.
#![tactic(auto)]

pub mod outcome;
pub mod rows;
pub mod stored;
