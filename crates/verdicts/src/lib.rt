// What all loud frames together tell of a track.
#![tactic(auto)]

pub mod verdict;
