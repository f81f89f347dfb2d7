// A file written again in the usual order: its lines, its targets, the end.
ghost use Rattle.std.specs.Prelude.{◌≡◌};
ghost use Rattle.planfile.specs.Format.{verdict};
ghost use Rattle.planfile.specs.Writing.{rewritten, rewrite_answer, SaysSame};

use super::put::put_whole;
use super::{Cause, Fields, FileFault, Item, check};

/// Writes what an accepted file says to the start of the output, and gives its length.
pub fn rewrite(file: &[u8], out: &mut [u8]) -> Result<u32, FileFault>
    ensures answer { result ≡ rewrite_answer (verdict file.now) out.old }
    ensures output { out.new ≡ rewritten (verdict file.now) out.old }
    ensures same { SaysSame (verdict file.now) result out.new }
{
    let sum = check(file)?;
    if out.len() < file.len() {
        return Err(Cause::NoRoom.at(0));
    }
    let items = Fields::of(file);
    let lines = items.filter(|item| matches!(item, Item::Piece(_)));
    let targets = items.filter(|item| matches!(item, Item::Target(_)));
    put_whole(lines, targets, (sum.pieces + sum.targets) as u16, out)
}
