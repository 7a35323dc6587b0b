// No answer depends on the engine: statements and proofs alone. See specs/.
#![tactic(auto)]
