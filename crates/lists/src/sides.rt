// One item more or fewer at either end.
ghost use Rattle.std.specs.Prelude.{◌≡◌, ◌+◌, ◌*◌, ◌^◌, ◌<◌, ◌≤◌, true, [], ◌∷◌, length};
ghost use Rattle.model.specs.Tree.{along};
ghost use Rattle.model.specs.Levels.{most_levels};
ghost use Rattle.cells.specs.Cells.{end};
ghost use Rattle.cells.specs.Chain.{Sound};
ghost use Rattle.lists.specs.Lists.{list_at, Whole, Right, Made, Given, GivenRight};

use cells::cell::{Body, Cell, FreeList, Root};
use cells::free::take_cell;
use cells::read::read_item;
use cells::side::Side;
use ends::pop::Popped;
use kinds::Kind;

/// The list with one item more at a side: at most two cells for each level of the result.
pub fn push<K: Kind>(
    cells: &mut [Cell<K::Item, K::Total>],
    free: &mut FreeList,
    side: Side,
    item: K::Item,
    root: Root,
) -> Root
    requires room { 2 * most_levels (length (list_at cells.old root) + 1) ≤ free.old.count }
    requires sound { Sound cells.old free.old }
    requires whole { Whole cells.old root }
    requires fits { length (list_at cells.old root) + 1 < 2 ^ 32 }
    ensures made { Made cells.old cells.new (2 * result.levels) result (along (end side) (item ∷ []) (list_at cells.old root)) }
    ensures right { Right K.Kind.kind cells.old root → K.Kind.kind.admitted item ≡ true → Right K.Kind.kind cells.new result }
    ensures sound { Sound cells.new free.new }
{
    let finger = take_cell(cells, free, Body::Item { item });
    ends::push::push::<K>(cells, free, 0, side, root, finger)
}

/// The item at a side, and the list without it, if there is one: at most one cell for each level of the source.
pub fn pop<K: Kind>(
    cells: &mut [Cell<K::Item, K::Total>],
    free: &mut FreeList,
    side: Side,
    root: Root,
) -> Option<Popped<K::Item>>
    requires room { root.levels ≤ free.old.count }
    requires sound { Sound cells.old free.old }
    requires whole { Whole cells.old root }
    requires fits { length (list_at cells.old root) < 2 ^ 32 }
    ensures given { Given cells.old cells.new free.old free.new root.levels (end side) (list_at cells.old root) result }
    ensures right { Right K.Kind.kind cells.old root → GivenRight K.Kind.kind cells.new result }
    ensures sound { Sound cells.new free.new }
{
    // Not by `?` alone: that the cells stay as they are is known of an empty list, and not of every pop that gives nothing.
    if root.levels == 0 {
        return None;
    }
    let Some(popped) = ends::pop::pop::<K>(cells, free, 0, side, root) else {
        unreachable();
    };
    Some(Popped {
        taken: read_item::<K>(cells, popped.taken),
        rest: popped.rest,
    })
}
