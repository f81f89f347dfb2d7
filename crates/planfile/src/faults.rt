// Why a file, or the writing of one, is refused.
ghost use Rattle.std.specs.Prelude.{◌≡◌};
ghost use Rattle.planfile.specs.Faults.{number_of, fault_at};

use thiserror::Error;

/// What is wrong. The number of each is what users know it by.
#[derive(Clone, Copy, PartialEq, Eq, Debug, Error)]
pub enum Cause {
    /// 4: the file has more than 65,535 bytes. Its place is 0.
    #[error("the file has more than 65535 bytes")]
    TooLong,
    /// 4: one or two bytes are left where a field has to begin with three.
    #[error("only one or two bytes are left where a field begins")]
    ShortHeader,
    /// 4: the value of a field runs past the end of the file.
    #[error("the value of a field runs past the end of the file")]
    ShortValue,
    /// 5: a tag that is none of 02, 03 and 7F.
    #[error("a field with a tag that is none of 02, 03 and 7F")]
    UnknownTag,
    /// 6: a piece of no bytes.
    #[error("a line with no bytes")]
    EmptyPiece,
    /// 6: a newline before the last byte of a piece.
    #[error("a newline before the last byte of a line")]
    InnerNewline,
    /// 6: a length that the tag does not have: 6 for a target, 2 for the end.
    #[error("a length that a field with this tag does not have")]
    WrongLength,
    /// 6: a target's number outside 1 to 9,999, or its range over 99,999.
    #[error("a target's number outside 1 to 9999, or its range over 99999")]
    TargetOutside,
    /// 6: a target number that came before.
    #[error("a target number that came before")]
    RepeatedNumber,
    /// 7: no end field. Its place is the length of the file.
    #[error("the end field is missing")]
    MissingEnd,
    /// 7: an end field that does not count the fields before it.
    #[error("the end field does not count the fields before it")]
    WrongCount,
    /// 7: bytes after the end field. Its place is the first of them.
    #[error("bytes after the end field")]
    TrailingBytes,
    /// 16: targets to be written that have a number twice.
    #[error("a target number that comes twice")]
    NumberTwice,
    /// 18: an output that is too short, or a file to be written that would pass 65,535 bytes. Its place is 0.
    #[error("the output is too short, or the file would have more than 65535 bytes")]
    NoRoom,
}

/// A refusal: what is wrong, and where. The place is the offset of the bad field in the file unless its cause says
/// otherwise; where targets to be written are refused it is 2, the argument that holds them.
#[derive(Clone, Copy, PartialEq, Eq, Debug, Error)]
#[error("number {}, layer file, place {place}: {cause}", self.number())]
pub struct FileFault {
    pub cause: Cause,
    pub place: u32,
}

impl Cause {
    /// The refusal for this cause at a place.
    pub(crate) fn at(self, place: u32) -> FileFault
        ensures { result ≡ fault_at self place }
    {
        FileFault { cause: self, place }
    }
}

impl FileFault {
    /// The number of the refusal. Each layer's numbers are its own, listed case by case.
    pub fn number(self) -> u8
        ensures { result ≡ number_of self.cause }
    {
        match self.cause {
            Cause::TooLong | Cause::ShortHeader | Cause::ShortValue => 4,
            Cause::UnknownTag => 5,
            Cause::EmptyPiece
            | Cause::InnerNewline
            | Cause::WrongLength
            | Cause::TargetOutside
            | Cause::RepeatedNumber => 6,
            Cause::MissingEnd | Cause::WrongCount | Cause::TrailingBytes => 7,
            Cause::NumberTwice => 16,
            Cause::NoRoom => 18,
        }
    }
}
