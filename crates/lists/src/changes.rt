// A list with another item at a position.
ghost use Rattle.std.specs.Prelude.{◌≡◌, ◌*◌, ◌^◌, ◌<◌, ◌≤◌, true, length, slice_set};
ghost use Rattle.cells.specs.Chain.{Sound};
ghost use Rattle.lists.specs.Lists.{list_at, Whole, Right, Made};

use cells::cell::{Cell, FreeList, Root};
use kinds::Kind;

/// The list with another item at a position: at most two cells for each level.
pub fn replace<K: Kind>(
    cells: &mut [Cell<K::Item, K::Total>],
    free: &mut FreeList,
    root: Root,
    position: u32,
    item: K::Item,
) -> Root
    requires room { 2 * root.levels ≤ free.old.count }
    requires sound { Sound cells.old free.old }
    requires whole { Whole cells.old root }
    requires fits { length (list_at cells.old root) < 2 ^ 32 }
    requires within { position < length (list_at cells.old root) }
    ensures made { Made cells.old cells.new (2 * root.levels) result (slice_set (list_at cells.old root) position item) }
    ensures right { Right K.Kind.kind cells.old root → K.Kind.kind.admitted item ≡ true → Right K.Kind.kind cells.new result }
    ensures sound { Sound cells.new free.new }
{
    places::replace::replace::<K>(cells, free, 0, root, position, item)
}
