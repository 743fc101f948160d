// The call file: from bytes to lines, and from a line to a call (docs/CALLS.md).
#![tactic(auto)]

pub mod forms;
pub mod line;
mod number;
mod parts;
#[cfg(test)]
mod tests;
pub mod token;
