// The alternate key beside the reported one.
#![tactic(auto)]

pub mod alternate;
