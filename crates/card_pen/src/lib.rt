// Key cards put by a pen into lent bytes: fields joined into numbers; then header, segments and filler.
#![tactic(auto)]

pub mod fields;
pub mod put;
pub mod whole;
