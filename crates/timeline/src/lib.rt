// What a track's time is divided into: estimates and segments, as structs and in lent rows.
#![tactic(auto)]

pub mod columns;
pub mod estimate;
pub mod estimate_rows;
pub mod segment;
pub mod segment_rows;
pub mod stored;
pub mod stretches;
