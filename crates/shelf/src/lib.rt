// Shelves of discs: plans of drives, what every make of shelf does, and where the blocks of a plan
// lie in a row of words.
#![tactic(auto)]

pub mod address;
pub mod layout;
pub mod make;
pub mod plan;
pub mod refusal;
pub mod room;
