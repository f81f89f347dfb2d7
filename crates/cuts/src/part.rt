// The part of a level that has a position.
ghost use Rattle.std.specs.Prelude.{suc, ◌+◌, ◌^◌, ◌<◌};
ghost use Rattle.model.specs.Tree.{count_run, count};
ghost use Rattle.model.specs.Forms.{Each, Formed};
ghost use Rattle.cells.specs.Cells.{nodes, rooted};
ghost use Rattle.cells.specs.Fingers.{listed};
ghost use Rattle.cuts.specs.Part.{PartAt};

use cells::cell::{Cell, Root};
use cells::fingers::Digit;
use cells::read::{weigh_run, weigh_tree};
use cells::side::Side;
use kinds::Kind;

/// A part of a level, and a position in it, counted from the left.
#[derive(Clone, Copy)]
pub enum Part {
    Front(u32),
    Middle(u32),
    Back(u32),
}

/// The part that has the position, of a level with this front and middle.
pub fn part_at<K: Kind>(
    cells: &[Cell<K::Item, K::Total>],
    level: u32,
    front: Digit,
    middle: Root,
    position: u32,
) -> Part
    requires shallow { level + middle.levels < 64 }
    requires front { Each level (nodes cells.now level (listed front)) }
    requires middle { Formed (suc level) (rooted cells.now (suc level) middle) }
    requires fits { count_run (nodes cells.now level (listed front)) < 2 ^ 32 }
    ensures { PartAt (count_run (nodes cells.now level (listed front))) (count (rooted cells.now (suc level) middle)) position result }
{
    let first = weigh_run::<K>(cells, level, Side::Front, front);
    if position < first.items {
        return Part::Front(position);
    }
    let after = position - first.items;
    let inner = weigh_tree::<K>(cells, level + 1, middle);
    if after < inner.items {
        return Part::Middle(after);
    }
    Part::Back(after - inner.items)
}
