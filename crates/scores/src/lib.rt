// The eight key profiles, and the scores of the 24 keys from a chroma.
#![tactic(auto)]

pub mod profiles;
pub mod scoring;
