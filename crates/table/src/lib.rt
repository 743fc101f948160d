// An ordered table over a lent slice, for every kind of record that has a key and a precedence.
#![tactic(auto)]

pub mod fault;
pub mod record;
mod slices;
pub mod table;
pub mod view;
