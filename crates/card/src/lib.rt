// Key cards: what one says, and the rules that it keeps.
#![tactic(auto)]

pub mod layout;
pub mod rules;
