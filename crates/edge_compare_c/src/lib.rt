// C linkage for the calls that are there for comparison only. Each export passes its call on to the function of its name in the library edge_compare,
// under the same contract.
#![tactic(auto)]

pub mod block_exports;
pub mod column_exports;
pub mod product_exports;
