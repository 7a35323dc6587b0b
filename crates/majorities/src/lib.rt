// The key that most of a group tells.
#![tactic(auto)]

pub mod majority;
