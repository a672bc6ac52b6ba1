// What crosses C linkage for the host: the plan, the operator and the update, on numbers and slices. The exports themselves are those of edge_c.
#![tactic(auto)]

pub mod cross;
pub mod exports;
