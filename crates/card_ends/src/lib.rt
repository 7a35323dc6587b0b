// No end on the card of an analysis lies after its track: statements and proofs alone. See specs/.
#![tactic(auto)]
