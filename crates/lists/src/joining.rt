// One list after another.
ghost use Rattle.std.specs.Prelude.{◌≡◌, ◌+◌, ◌*◌, ◌^◌, ◌<◌, ◌≤◌, ◌++◌, length};
ghost use Rattle.model.specs.Levels.{most_levels};
ghost use Rattle.cells.specs.Chain.{Sound};
ghost use Rattle.lists.specs.Lists.{list_at, Whole, Right, Made};

use cells::cell::{Cell, FreeList, Root};
use kinds::Kind;

/// The items of the one and then those of the other: at most ten cells for each level of the result. Both may be the same.
pub fn join<K: Kind>(
    cells: &mut [Cell<K::Item, K::Total>],
    free: &mut FreeList,
    left: Root,
    right: Root,
) -> Root
    requires room { 10 * most_levels (length (list_at cells.old left) + length (list_at cells.old right)) ≤ free.old.count }
    requires sound { Sound cells.old free.old }
    requires left { Whole cells.old left }
    requires right { Whole cells.old right }
    requires fits { length (list_at cells.old left) + length (list_at cells.old right) < 2 ^ 32 }
    ensures made { Made cells.old cells.new (10 * result.levels) result (list_at cells.old left ++ list_at cells.old right) }
    ensures right { Right K.Kind.kind cells.old left → Right K.Kind.kind cells.old right → Right K.Kind.kind cells.new result }
    ensures sound { Sound cells.new free.new }
{
    joins::append::append::<K>(cells, free, 0, left, None, right)
}
