// The words of the market: zones, sides, bids, blocks, accounts, calls and refusals (docs/MARKET.md).
#![tactic(auto)]

pub mod account;
pub mod block;
pub mod call;
pub mod capacities;
pub mod limits;
pub mod places;
pub mod purchase;
pub mod refusal;
pub mod row;
pub mod sale;
pub mod valid;
pub mod zone;
