// Document 01's sixteen rows, held against the definitions. See specs/.
#![tactic(auto)]
