// Products over columns, blocks and a plan.
#![tactic(auto)]

pub mod coupling;
pub mod operator;
pub mod order;
mod plan_check;
pub mod side;
mod side_sums;
mod spans_sweep;
mod sweep_check;
pub mod update;
mod window;
