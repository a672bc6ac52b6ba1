// Blocks: partition.rs over the columns' promises. The check of both sides and the column map, lookups, block access, the gather of block
// values and their damping.
#![tactic(auto)]

pub mod block_values;
pub mod check;
pub mod damping;
pub mod eliminated_blocks;
pub mod owner;
pub mod partition;
pub mod sides;
