// Transfers of consecutive blocks between a shelf of any make and memory.
#![tactic(auto)]

pub mod blocks;
pub mod fault;
pub mod span;
