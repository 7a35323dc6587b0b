// The whole analysis of a track, from the checks to the alternate key: the Rust's `analyze`.
#![tactic(auto)]

pub mod analyse;
