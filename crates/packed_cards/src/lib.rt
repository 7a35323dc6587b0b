// Key cards from packed numbers: keys by number, thousandths and milliseconds, judged and written.
#![tactic(auto)]

pub mod judge;
pub mod rows;
pub mod write;
