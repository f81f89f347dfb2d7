// Two trees in cells as one.
#![tactic(auto)]

pub mod append;
pub mod group;
pub mod row;
