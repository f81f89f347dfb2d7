// Fingers, or none, as a tree.
ghost use Rattle.std.specs.Prelude.{◌^◌, ◌<◌};
ghost use Rattle.model.specs.Tree.{count_run};
ghost use Rattle.model.specs.Ends.{tree_of};
ghost use Rattle.model.specs.Forms.{Each};
ghost use Rattle.cells.specs.Cells.{end, nodes};
ghost use Rattle.cells.specs.Chain.{Sound, free_cells};
ghost use Rattle.cells.specs.Made.{MadeTree};
ghost use Rattle.cells.specs.Fingers.{listed_some};

use cells::cell::{Cell, EMPTY, FreeList, Root};
use cells::fingers::Digit;
use cells::side::Side;
use ends::pop::tree_from;
use kinds::Kind;

/// Fingers listed from the side, or none, as a tree.
pub fn tree_some<K: Kind>(
    cells: &mut [Cell<K::Item, K::Total>],
    free: &mut FreeList,
    level: u32,
    side: Side,
    run: Option<Digit>,
) -> Root
    requires room { 0 < free_cells cells.old }
    requires sound { Sound cells.old free.old }
    requires shallow { level < 64 }
    requires formed { Each level (nodes cells.old level (listed_some run)) }
    requires fits { count_run (nodes cells.old level (listed_some run)) < 2 ^ 32 }
    ensures made { MadeTree cells.old cells.new 1 level result (tree_of K.Kind.kind (end side) (nodes cells.old level (listed_some run))) }
    ensures sound { Sound cells.new free.new }
{
    match run {
        None => EMPTY,
        Some(digit) => tree_from::<K>(cells, free, level, side, digit),
    }
}
