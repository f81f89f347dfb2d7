// One finger more or fewer at either end of a tree in cells.
#![tactic(auto)]

pub mod pop;
pub mod push;
