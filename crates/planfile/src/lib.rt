// Plan files: the format alone, over byte slices and with no memory of its own.
//
// A file is a sequence of fields. A field is a tag, the length of its value in two bytes, high byte first, and the value:
//   02  a piece of text: one line, of at least one byte, with a newline only as the last
//   03  a target: its number, 1 to 9,999, in two bytes, and its range, 0 to 99,999, in four; no number comes twice
//   7F  the end: the number of fields before it, in two bytes; nothing comes after it
// Lines and targets may be mixed, and each group keeps its order. A file has at most 65,535 bytes.
// Where a file is refused, the first bad field counts, and in it the lowest number (see `Cause`).
// What is written has its lines first, then its targets, then the end.
#![tactic(auto)]

mod again;
mod compose;
mod faults;
mod fields;
mod numbers;
mod put;
mod read;
mod tags;

pub use again::rewrite;
pub use compose::write;
pub use faults::{Cause, FileFault};
pub use fields::{Fields, Item};
pub use put::{put_end, put_piece, put_target};
pub use read::{Summary, check};

/// The greatest number of bytes that a file may have.
pub const MOST_BYTES: usize = 65535;

#[cfg(test)]
mod tests;
