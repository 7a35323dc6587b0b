// No code: laws for walks by hand, of functions over a lent slice of records. See proofs/.
#![tactic(auto)]
