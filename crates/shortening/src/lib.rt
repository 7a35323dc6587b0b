// Shortening: short segments joined to their neighbours, in lent rows.
#![tactic(auto)]

pub mod shorten;
