// The numbers of a summary: what one card adds to them, and a whole set worked out afresh.
#![tactic(auto)]

pub mod one_card;
pub mod whole_set;
