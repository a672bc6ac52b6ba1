// Demand 3, second half: a side's planned spans, in any accepted work order, are the undivided sweep. Definitions and laws; no function.
#![tactic(auto)]
