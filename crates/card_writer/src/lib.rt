// Key cards written: an analysis that keeps the rules put into lent bytes.
#![tactic(auto)]

pub mod write;
