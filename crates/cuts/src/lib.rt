// Fingers cut at a position, the part of a level that has it, and the item there.
#![tactic(auto)]

pub mod cut;
pub mod item;
pub mod part;
