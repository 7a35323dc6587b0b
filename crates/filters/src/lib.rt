// Filters over a lent table sheet: one resonator, four side by side, and sums by pitch class.
#![tactic(auto)]

pub mod classes;
pub mod four;
pub mod resonator;
