// Key cards read: what stands on one, and whether it can be read.
#![tactic(auto)]

pub mod judge;
pub mod on_card;
