// Pieces of text: how many bytes and newlines they come to.
ghost use Rattle.kinds.specs.Pieces.{of_pieces};
ghost use Rattle.std.proofs.Common.{rules};

use super::Kind;

/// A part of some text: where it begins, how many bytes it has, and whether the last of them is a newline.
#[derive(Clone, Copy, PartialEq, Eq, Debug)]
pub struct Piece {
    pub place: u32,
    pub length: u16,
    pub ended: bool,
}

/// The bytes and newlines of some pieces. A sum that would pass 4,294,967,295 stops there.
#[derive(Clone, Copy, PartialEq, Eq, Debug)]
pub struct Size {
    pub bytes: u32,
    pub newlines: u32,
}

/// Whether a total reaches past the byte k, or past the newline k, both counted from 0.
#[derive(Clone, Copy)]
pub enum Offset {
    Byte(u32),
    Newline(u32),
}

/// The kind of pieces.
#[derive(Clone, Copy)]
pub struct Pieces;

impl Kind for Pieces {
    type Item = Piece;

    type Total = Size;

    type Question = Offset;

    const MOST: u32 = 65535;

    ghost kind = { of_pieces };

    ghost lawful = { Prim.search rules };

    fn limit() -> u32 {
        Self::MOST
    }

    fn admits(item: Piece) -> bool {
        1 <= item.length
    }

    fn nothing() -> Size {
        Size {
            bytes: 0,
            newlines: 0,
        }
    }

    fn measure(item: Piece) -> Size {
        Size {
            bytes: item.length as u32,
            newlines: item.ended as u32,
        }
    }

    fn join(left: Size, right: Size) -> Size {
        Size {
            bytes: left.bytes.saturating_add(right.bytes),
            newlines: left.newlines.saturating_add(right.newlines),
        }
    }

    fn meets(total: Size, question: Offset) -> bool {
        match question {
            Offset::Byte(k) => total.bytes > k,
            Offset::Newline(k) => total.newlines > k,
        }
    }
}
