// Reading: each field by itself, and the verdict on a whole file.
ghost use Rattle.std.specs.Prelude.{◌≡◌, ◌≤◌, length};
ghost use Rattle.planfile.specs.Format.{meaning, piece_meaning, target_meaning, end_meaning, front, verdict};
ghost use Rattle.planfile.specs.Files.{KeepsRules, EnoughFields};
ghost use Rattle.planfile.specs.Reading.{counted, stepped, told};

use super::numbers::Numbers;
use super::{Cause, FileFault, Item, MOST_BYTES, tags};
use kinds::{Kind, Target, Targets};

/// How much a file holds.
#[derive(Clone, Copy, PartialEq, Eq, Debug, Default)]
pub struct Summary {
    pub pieces: u32,
    pub targets: u32,
    pub text: u32,
}

/// What one field says.
#[derive(Clone, Copy, PartialEq, Eq, Debug)]
pub enum Field<'a> {
    Item(Item<'a>),
    End(u16),
}

/// A field, and the bytes after it.
#[derive(Clone, Copy, PartialEq, Eq, Debug)]
pub struct Step<'a> {
    pub field: Field<'a>,
    pub rest: &'a [u8],
}

/// The line that a piece holds.
fn read_piece(value: &[u8]) -> Result<Field<'_>, Cause>
    ensures { told result ≡ piece_meaning value.now }
{
    match value {
        [] => Err(Cause::EmptyPiece),
        [inner @ .., _] if inner.contains(&b'\n') => Err(Cause::InnerNewline),
        line => Ok(Field::Item(Item::Piece(line))),
    }
}

/// The target in six bytes.
fn read_target(value: &[u8]) -> Result<Field<'_>, Cause>
    ensures { told result ≡ target_meaning value.now }
{
    let &[n1, n0, r3, r2, r1, r0] = value else {
        return Err(Cause::WrongLength);
    };
    let number = u16::from_be_bytes([n1, n0]);
    let range = u32::from_be_bytes([r3, r2, r1, r0]);
    let target = Target { number, range };
    if Targets::admits(target) {
        Ok(Field::Item(Item::Target(target)))
    } else {
        Err(Cause::TargetOutside)
    }
}

/// The count in the two bytes of an end field.
fn read_end(value: &[u8]) -> Result<Field<'_>, Cause>
    ensures { told result ≡ end_meaning value.now }
{
    match *value {
        [hi, lo] => Ok(Field::End(u16::from_be_bytes([hi, lo]))),
        _ => Err(Cause::WrongLength),
    }
}

/// What a field with this tag and value says, or what is wrong with it. The tags are a closed list, so a `match`.
fn read_field(tag: u8, value: &[u8]) -> Result<Field<'_>, Cause>
    ensures { told result ≡ meaning tag value.now }
{
    match tag {
        tags::PIECE => read_piece(value),
        tags::TARGET => read_target(value),
        tags::END => read_end(value),
        _ => Err(Cause::UnknownTag),
    }
}

/// The field that the bytes begin with, or what is wrong with it.
pub fn first_field(bytes: &[u8]) -> Result<Step<'_>, Cause>
    ensures { stepped result ≡ front bytes.now }
{
    // The form of a field stands as a pattern: a tag, its length high byte first, and the rest.
    let [tag, hi, lo, after @ ..] = bytes else {
        return Err(Cause::ShortHeader);
    };
    let size = u16::from_be_bytes([*hi, *lo]);
    let Some((value, rest)) = after.split_at_checked(usize::from(size)) else {
        return Err(Cause::ShortValue);
    };
    let field = read_field(*tag, value)?;
    Ok(Step { field, rest })
}

/// The verdict on a whole file: how much it holds, or the first fault.
pub fn check(file: &[u8]) -> Result<Summary, FileFault>
    ensures verdict { result ≡ counted (verdict file.now) }
    ensures keeps_rules { KeepsRules }
    ensures enough_fields { EnoughFields }
{
    if file.len() > MOST_BYTES {
        return Err(Cause::TooLong.at(0));
    }
    scan(file)
}

/// The verdict on a file that is not too long, field by field.
fn scan(file: &[u8]) -> Result<Summary, FileFault>
    requires { length file.now ≤ 65535 }
    ensures { result ≡ counted (verdict file.now) }
{
    let mut seen = Numbers::none();
    let mut sum = Summary::default();
    let mut left = file;
    // A `for` over fields would hide what is left, from which each place is counted.
    while !left.is_empty() {
        let place = (file.len() - left.len()) as u32;
        let Step { field, rest } = first_field(left).map_err(|cause| cause.at(place))?;
        match field {
            Field::Item(Item::Piece(line)) => {
                sum.pieces += 1;
                sum.text += line.len() as u32;
            }
            Field::Item(Item::Target(target)) => {
                if !seen.insert(target.number) {
                    return Err(Cause::RepeatedNumber.at(place));
                }
                sum.targets += 1;
            }
            Field::End(count) if u32::from(count) != sum.pieces + sum.targets => {
                return Err(Cause::WrongCount.at(place));
            }
            Field::End(_) if !rest.is_empty() => {
                return Err(Cause::TrailingBytes.at((file.len() - rest.len()) as u32));
            }
            Field::End(_) => return Ok(sum),
        }
        left = rest;
    }
    Err(Cause::MissingEnd.at(file.len() as u32))
}
