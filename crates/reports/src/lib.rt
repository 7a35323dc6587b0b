// From the verdict on a track to the answer, with its segments in lent rows.
#![tactic(auto)]

pub mod report;
