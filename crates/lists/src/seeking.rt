// Where a question is met.
ghost use Rattle.std.specs.Prelude.{◌≡◌, ◌+◌, ◌*◌, ◌^◌, ◌<◌, ◌≤◌, length};
ghost use Rattle.model.specs.Seek.{seek as first_met};
ghost use Rattle.cells.specs.Chain.{Sound};
ghost use Rattle.seeks.specs.Sought.{sought, Inside};
ghost use Rattle.lists.specs.Lists.{list_at, Whole, Right, PartedBy};

use super::halves::Halves;
use super::positions::split_at;
use cells::cell::{Cell, EMPTY, FreeList, Root};
use kinds::Kind;
use seeks::seek::Found;

/// The least position whose items up to it meet the question, and what those before it come to, or that none is.
/// A question is put to totals of at least one item.
pub fn seek<K: Kind>(
    cells: &[Cell<K::Item, K::Total>],
    root: Root,
    question: K::Question,
) -> Option<Found<K::Total>>
    requires whole { Whole cells.now root }
    requires fits { length (list_at cells.now root) < 2 ^ 32 }
    ensures right { Right K.Kind.kind cells.now root → sought result ≡ first_met K.Kind.kind question (list_at cells.now root) }
    ensures within { Inside (length (list_at cells.now root)) result }
{
    seeks::seek::seek::<K>(cells, question, root)
}

/// The items before the one by which the question is first met, and the rest; all and none where it is not met. It takes the
/// cells of a split at a position.
pub fn split_by<K: Kind>(
    cells: &mut [Cell<K::Item, K::Total>],
    free: &mut FreeList,
    root: Root,
    question: K::Question,
) -> Halves
    requires room { root.levels * root.levels + 3 * root.levels ≤ free.old.count }
    requires sound { Sound cells.old free.old }
    requires whole { Whole cells.old root }
    requires fits { length (list_at cells.old root) < 2 ^ 32 }
    ensures parted { PartedBy K.Kind.kind cells.old cells.new (root.levels * root.levels + 3 * root.levels) question root result }
    ensures right { Right K.Kind.kind cells.old root → Right K.Kind.kind cells.new result.left × Right K.Kind.kind cells.new result.right }
    ensures sound { Sound cells.new free.new }
{
    match seek::<K>(cells, root, question) {
        None => Halves {
            left: root,
            right: EMPTY,
        },
        Some(found) => split_at::<K>(cells, free, root, found.position),
    }
}
