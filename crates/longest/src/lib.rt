// The reported key: the longest segment's where there are several.
#![tactic(auto)]

pub mod longest;
