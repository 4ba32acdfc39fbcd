// The makes of shelf: dense, which holds every block, and sparse, which holds those written.
#![tactic(auto)]

pub mod dense;
pub mod slot;
pub mod sparse;
mod store;
