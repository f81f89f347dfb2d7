// A file made of a text and of targets.
ghost use Rattle.std.specs.Prelude.{◌≡◌, ◌≤◌, true, length, Ok, ◌==◌};
ghost use Rattle.planfile.specs.Files.{file_of, all_targets, distinct};
ghost use Rattle.planfile.specs.Text.{lines_of};
ghost use Rattle.planfile.specs.Writing.{Puts, write_answer, write_output, content_of, SaysSame};

use super::numbers::Numbers;
use super::put::put_whole;
use super::{Cause, FileFault, Item, MOST_BYTES};
use kinds::{Kind, Target, Targets};

/// Writes the file of a text, cut after each newline, and of targets to the start of the output, and gives its length.
pub fn write(text: &[u8], targets: &[Target], out: &mut [u8]) -> Result<u32, FileFault>
    ensures answer { result ≡ write_answer (lines_of text.now) targets.now out.old }
    ensures output { out.new ≡ write_output (lines_of text.now) targets.now out.old }
    ensures same { SaysSame (Ok (content_of (lines_of text.now) targets.now)) result out.new }
{
    if !all_admitted(targets) {
        return Err(Cause::TargetOutside.at(2));
    }
    if !all_distinct(targets) {
        return Err(Cause::NumberTwice.at(2));
    }
    put_file(text, targets, out)
}

/// Whether each target is within its limits.
fn all_admitted(targets: &[Target]) -> bool
    ensures { result ≡ all_targets targets.now }
{
    targets.iter().all(|target| Targets::admits(*target))
}

/// Whether no number comes twice.
fn all_distinct(targets: &[Target]) -> bool
    requires { all_targets targets.now ≡ true }
    ensures { result ≡ distinct targets.now }
{
    let mut seen = Numbers::none();
    // No `all`: of a closure that changes the set, a contract says nothing.
    for target in targets {
        if !seen.insert(target.number) {
            return false;
        }
    }
    true
}

/// Writes the file where it fits, else refuses and writes nothing.
fn put_file(text: &[u8], targets: &[Target], out: &mut [u8]) -> Result<u32, FileFault>
    ensures { Puts out.old 0 (file_of (lines_of text.now) targets.now) result out.new }
{
    if text.len() > MOST_BYTES || targets.len() > MOST_BYTES {
        return Err(Cause::NoRoom.at(0));
    }
    let line_count = count_lines(text);
    let size = text.len() + 3 * line_count + 9 * targets.len() + 5;
    if size > MOST_BYTES || size > out.len() {
        return Err(Cause::NoRoom.at(0));
    }
    let count = (line_count + targets.len()) as u16;
    let lines = text.split_inclusive(is_newline).map(Item::Piece);
    put_whole(lines, targets.iter().map(target_item), count, out)
}

/// Whether a byte ends a line.
fn is_newline(byte: &u8) -> bool
    ensures { result ≡ (byte.now == 0x0A) }
{
    *byte == b'\n'
}

/// How many lines the text has.
fn count_lines(text: &[u8]) -> usize
    ensures lines { result ≡ length (lines_of text.now) }
    ensures few { result ≤ length text.now }
{
    text.split_inclusive(is_newline).count()
}

/// A target as an item. (`Item::Target` as a function leaves the lifetime open, and the check does not take that.)
fn target_item<'a>(target: &'a Target) -> Item<'a>
    ensures { result ≡ Item.Target target.now }
{
    Item::Target(*target)
}
