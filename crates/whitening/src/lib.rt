// Whitening and normalising the twelve values of a chroma.
#![tactic(auto)]

pub mod levels;
