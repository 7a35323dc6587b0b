// Reading and writing cards are inverse to each other: statements and proofs alone. See specs/.
#![tactic(auto)]
