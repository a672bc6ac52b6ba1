// The structure plan: which eliminated block owns each row, each block's rows, which eliminated blocks a kept block sees, and each side's
// entries cut into spans by chunks of rows.
#![tactic(auto)]

pub mod lent;
mod lists;
mod owners;
mod row_lists;
pub mod spans;
pub mod structure;
mod visible;
