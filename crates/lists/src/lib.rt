// Lists in cells: what is done with a root, by the list that it stands for.
//
// Each function takes the lent cells, and one that makes a list their free list too. Cells in use are never written, so that
// every other root reads as before; a result shares what it can with its sources. What is asked of a root (whole, fits)
// stands in clauses: a root alone does not know its cells.
#![tactic(auto)]

mod changes;
mod halves;
mod joining;
mod positions;
mod reads;
mod seeking;
mod sides;

pub use changes::replace;
pub use ends::pop::Popped;
pub use halves::Halves;
pub use joining::join;
pub use positions::{item, split_at};
pub use reads::{length, total};
pub use seeking::{seek, split_by};
pub use sides::{pop, push};

#[cfg(test)]
mod tests;
