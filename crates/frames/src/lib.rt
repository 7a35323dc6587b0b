// The run over all frame positions: the loud frames into lent rows, up to one that is not finite.
#![tactic(auto)]

pub mod run;
