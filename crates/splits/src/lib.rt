// Where a window starts a new group of estimates, and the border between two windows.
#![tactic(auto)]

pub mod split;
