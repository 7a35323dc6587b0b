// What the lister prints of a card.
#![tactic(auto)]

pub mod cards;
pub mod lines;
