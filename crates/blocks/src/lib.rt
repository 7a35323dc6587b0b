// Constant-Q at eight frame positions at once: one row, the block of chromas, and the stock computed ahead.
#![tactic(auto)]

pub mod block;
pub mod eight;
pub mod stock;
