// Columns, compressed: the refusals of document 01, the check that columns keep the rules, and the products with columns that
// jacobian_ops.rs has. This is the lowest layer that knows what a matrix is.
#![tactic(auto)]

pub mod check;
pub mod jacobian_ops;
pub mod lent;
mod reader;
pub mod refusal;
pub mod unchecked;
