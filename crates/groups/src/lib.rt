// Groups: estimates cut where the key changes, and each group made a segment.
#![tactic(auto)]

pub mod cut;
