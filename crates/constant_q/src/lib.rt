// Constant-Q over a lent sheet: every row's resonator over its own window around a centre.
#![tactic(auto)]

pub mod chroma;
pub mod lanes;
pub mod powers;
pub mod span;
