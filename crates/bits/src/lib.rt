// Bits of numbers by shifts and masks, a pen that puts them into lent bytes, and a reader that gets them back.
#![tactic(auto)]

pub mod masks;
pub mod pen;
pub mod reader;
