// Machine cards: a machine record as bytes, written through a bit writer and read back.
#![tactic(auto)]

pub mod codec;
mod field;
mod place;
mod reader;
pub mod refusal;
pub mod writer;
