// Kinds of items.
//
// A kind names its item, its total and its question, and the most items that one list of it may hold. A list's total
// is what its items' totals come to, joined from left to right; a question asks of a total whether it is met.
// Everything above is written once, for every kind that keeps the laws.
#![tactic(auto)]

ghost use Rattle.std.specs.Prelude.{◌≡◌};
ghost use Rattle.kinds.specs.Algebra.{Algebra, Laws};

mod counted;
mod pieces;
mod targets;

pub use counted::{Ask, Counted, Tally};
pub use pieces::{Offset, Piece, Pieces, Size};
pub use targets::{Target, Targets, Within};

/// What a kind of items answers, each time from the arguments alone.
pub trait Kind {
    type Item: Copy;

    type Total: Copy;

    type Question: Copy;

    /// The most items that one list may hold, from 1 to 65,535.
    const MOST: u32;

    /// The kind as mathematics: all that the answers below are.
    ghost kind: { Algebra Self.Item Self.Total Self.Question };

    /// `MOST`, for code that is generic in the kind: its contracts see nothing of a trait's constant, so no body stands here.
    fn limit() -> u32
        ensures { result ≡ kind.limit };

    /// Whether a list may hold the item.
    fn admits(item: Self::Item) -> bool
        ensures { result ≡ kind.admitted item };

    /// The total of no items.
    fn nothing() -> Self::Total
        ensures { result ≡ kind.nothing };

    /// The total of one item.
    fn measure(item: Self::Item) -> Self::Total
        ensures { result ≡ kind.measure item };

    /// The total of what comes to `left`, and after it what comes to `right`.
    fn join(left: Self::Total, right: Self::Total) -> Self::Total
        ensures { result ≡ kind.joined left right };

    /// Whether the total meets the question.
    fn meets(total: Self::Total, question: Self::Question) -> bool
        ensures { result ≡ kind.met total question };

    /// Joining is associative, nothing is neutral on both sides, and a question once met stays met.
    ghost lawful: { Laws kind };
}

#[cfg(test)]
mod tests;
