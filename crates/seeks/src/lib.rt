// The finding of the first item by which a question is met.
#![tactic(auto)]

pub mod seek;
pub mod spot;
