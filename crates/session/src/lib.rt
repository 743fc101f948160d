// What an exchange holds besides its state: the ledger that it carries, the session that is open, and the calls on their tables
// (docs/MARKET.md, docs/REFUSALS.md).
#![tactic(auto)]

pub mod counted;
pub mod ledger;
pub mod lent;
pub mod report;
mod rows;
pub mod session;
