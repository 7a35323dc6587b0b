// Sets of key cards: 1,024 places of 512 bytes in one lent slice.
#![tactic(auto)]

pub mod bytes;
pub mod places;
