// The memory that a store is lent, and what is done in it before a version has a place.
#![tactic(auto)]

pub mod fault;
pub mod memory;
pub mod rows;
pub mod table;
#[cfg(test)]
mod tests;
