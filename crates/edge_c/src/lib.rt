// C linkage for the host: the plan, the operator and the update. Each export passes its call on to the function of its name in the library edge, under
// the same contract.
#![tactic(auto)]

pub mod exports;
