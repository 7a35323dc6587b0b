// No functions: what calls on a set of cards, one after the other, leave in it.
#![tactic(auto)]
