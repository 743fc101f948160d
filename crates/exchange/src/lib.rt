// The exchange: four states, eight calls, and what holds of every run (docs/MARKET.md, docs/REFUSALS.md).
#![tactic(auto)]

mod applying;
pub mod exchange;
mod results;
pub mod run;
pub mod state;
