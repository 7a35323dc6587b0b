// The answer of an analysis, as numbers.
#![tactic(auto)]

pub mod answer;
