// The leaves, exported for the comparison with the Rust. Never shipped.
#![tactic(auto)]

pub mod chroma_leaves;
pub mod filters_of_sheet;
pub mod keys_by_number;
pub mod medians_of_work;
pub mod numbers_f32;
pub mod numbers_f64;
pub mod packed_numbers;
