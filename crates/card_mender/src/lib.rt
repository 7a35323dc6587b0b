// Damaged key cards: what is kept of one, and the card that is made of it.
#![tactic(auto)]

pub mod header;
pub mod judge;
pub mod segments;
pub mod write;
