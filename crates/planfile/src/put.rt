// Writing: a field at a position of the output.
ghost use Rattle.std.specs.Prelude.{◌≡◌, ◌+◌, ◌≤◌, List, ◌++◌, length};
ghost use Rattle.std.specs.List.{flat_map};
ghost use Rattle.std.specs.Iterator.{IsFinite, AlwaysYields};
ghost use Rattle.planfile.specs.Format.{Meaning};
ghost use Rattle.planfile.specs.Files.{field_of, piece_field, target_field, end_field, field_saying};
ghost use Rattle.planfile.specs.Reading.{item_said};
ghost use Rattle.planfile.specs.Writing.{written, Puts, Appends};

use super::{Cause, FileFault, Item, MOST_BYTES, tags};
use kinds::Target;

/// Writes a field that fits.
fn write_field(out: &mut [u8], at: usize, tag: u8, value: &[u8])
    requires room { at + 3 + length value.now ≤ length out.old }
    requires short { length value.now ≤ 65535 }
    ensures { out.new ≡ written out.old at (field_of tag value.now) }
{
    let [hi, lo] = (value.len() as u16).to_be_bytes();
    let start = at + 3;
    out[at..start].copy_from_slice(&[tag, hi, lo]);
    out[start..start + value.len()].copy_from_slice(value);
}

// The output and the position travel side by side, as users pass them: a struct of both would be made in each function
// and taken apart again for the position in the answer.

/// Writes a field at a position and gives the position after it, or refuses and writes nothing.
fn put_field(out: &mut [u8], at: u32, tag: u8, value: &[u8]) -> Result<u32, FileFault>
    ensures { Puts out.old at (field_of tag value.now) result out.new }
{
    let start = at as usize;
    let end = start + 3 + value.len();
    if end > out.len() || end > MOST_BYTES {
        return Err(Cause::NoRoom.at(0));
    }
    write_field(out, start, tag, value);
    Ok(end as u32)
}

/// Appends one line.
pub fn put_piece(out: &mut [u8], at: u32, line: &[u8]) -> Result<u32, FileFault>
    ensures { Puts out.old at (piece_field line.now) result out.new }
{
    put_field(out, at, tags::PIECE, line)
}

/// Appends one target.
pub fn put_target(out: &mut [u8], at: u32, target: Target) -> Result<u32, FileFault>
    ensures { Puts out.old at (target_field target) result out.new }
{
    let [n1, n0] = target.number.to_be_bytes();
    let [r3, r2, r1, r0] = target.range.to_be_bytes();
    put_field(out, at, tags::TARGET, &[n1, n0, r3, r2, r1, r0])
}

/// Appends the end of a file with so many fields before it.
pub fn put_end(out: &mut [u8], at: u32, count: u16) -> Result<u32, FileFault>
    ensures { Puts out.old at (end_field count) result out.new }
{
    put_field(out, at, tags::END, &count.to_be_bytes())
}

/// Appends one item.
fn put_item(out: &mut [u8], at: u32, item: Item<'_>) -> Result<u32, FileFault>
    ensures { Puts out.old at (field_saying (item_said item.entry)) result out.new }
{
    match item {
        Item::Piece(line) => put_piece(out, at, line),
        Item::Target(target) => put_target(out, at, target),
    }
}

/// Appends the items, and gives the position after them: where there is room for all of them, just these.
fn put_all<'a, I: Iterator<Item = Item<'a>> + Drop>(
    items: I,
    out: &mut [u8],
    mut at: u32,
) -> Result<u32, FileFault>
    requires can { I.can_next items }
    requires ends { IsFinite (I.remaining items) }
    ensures { (all : List Meaning) → AlwaysYields I.next_gives item_said items all →
        Appends out.old at (flat_map field_saying all) result out.new }
{
    for item in items {
        at = put_item(out, at, item)?;
    }
    Ok(at)
}

/// Writes lines and targets and an end that counts so many of them: where there is room for all, just these.
pub(crate) fn put_whole<
    'a,
    L: Iterator<Item = Item<'a>> + Drop,
    T: Iterator<Item = Item<'a>> + Drop,
>(lines: L, targets: T, count: u16, out: &mut [u8]) -> Result<u32, FileFault>
    requires lines_can { L.can_next lines }
    requires lines_end { IsFinite (L.remaining lines) }
    requires targets_can { T.can_next targets }
    requires targets_end { IsFinite (T.remaining targets) }
    ensures { (ls ts : List Meaning) → AlwaysYields L.next_gives item_said lines ls →
        AlwaysYields T.next_gives item_said targets ts →
        Appends out.old 0 (flat_map field_saying ls ++ (flat_map field_saying ts ++ end_field count)) result out.new }
{
    let at = put_all(lines, out, 0)?;
    let at = put_all(targets, out, at)?;
    put_end(out, at, count)
}
