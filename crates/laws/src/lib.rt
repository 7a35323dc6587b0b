// Facts that no single function owns: loops, searches, slices written from the front, tables of
// checks, and the order and rounding of floats. See specs/ for the definitions and proofs/ for their laws.
#![tactic(auto)]
