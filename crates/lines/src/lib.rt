// One line of a call file: read, applied to an exchange, and answered (docs/CALLS.md).
#![tactic(auto)]

pub mod line;
pub mod printed;
