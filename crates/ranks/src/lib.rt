// The value at a rank of unsorted values: those that can't be it go, and it is read back from its order key.
#![tactic(auto)]

pub mod narrowing;
pub mod values;
