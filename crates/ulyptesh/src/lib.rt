// The product: the exported calls, each with its whole promise. They take any input, and answer a
// number of document 01 where they refuse. What a call does stands in the crate of its body.
#![tactic(auto)]

pub mod abi;
pub mod analysis_of_track;
pub mod cards;
pub mod frames_only;
pub mod from_chroma;
pub mod names;
pub mod sets;
