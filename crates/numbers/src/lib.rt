// The number leaves: each is right for every input, by IEEE 754-2019. Definitions are in specs/ here
// and in the crate laws.
#![tactic(auto)]

pub mod counts;
pub mod double;
pub mod flags;
pub mod floats;
pub mod single;
pub mod twelve;
