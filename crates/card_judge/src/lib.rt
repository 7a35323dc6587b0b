// An analysis judged for a card: its packed numbers, and the rules that they must keep.
#![tactic(auto)]

pub mod analysed;
