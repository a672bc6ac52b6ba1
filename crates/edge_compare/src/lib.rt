// What crosses C linkage of the calls that the host does not make at night, so that all of them can be compared with the original. The exports
// themselves are those of edge_compare_c.
#![tactic(auto)]

pub mod block_exports;
pub mod column_exports;
pub mod cross;
pub mod product_exports;
