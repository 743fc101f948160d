// The ladders of blocks: for each zone and side the blocks in their order of precedence.
#![tactic(auto)]

pub mod answered;
pub mod ladders;
