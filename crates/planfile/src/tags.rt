// The tags of fields, for reading and for writing.

/// A piece of text: one line.
pub(crate) const PIECE: u8 = 0x02;

/// A target.
pub(crate) const TARGET: u8 = 0x03;

/// The end of a file.
pub(crate) const END: u8 = 0x7F;
