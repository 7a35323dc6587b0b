// All frame positions of a track in turn, and the analysis of its loud frames.
#![tactic(auto)]

pub mod run;
