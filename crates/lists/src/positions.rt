// A list in two, and the item at a position.
ghost use Rattle.std.specs.Prelude.{◌≡◌, ◌+◌, ◌*◌, ◌^◌, ◌<◌, ◌≤◌, length, take, drop, slice_index_or};
ghost use Rattle.cells.specs.Chain.{Sound};
ghost use Rattle.lists.specs.Lists.{list_at, Whole, Right, MadeTwo};

use super::halves::Halves;
use cells::cell::{Cell, FreeList, Root};
use cells::side::Side;
use kinds::Kind;

/// The item at a position.
pub fn item<K: Kind>(cells: &[Cell<K::Item, K::Total>], root: Root, position: u32) -> K::Item
    requires whole { Whole cells.now root }
    requires fits { length (list_at cells.now root) < 2 ^ 32 }
    requires within { position < length (list_at cells.now root) }
    ensures { result ≡ slice_index_or (list_at cells.now root) position result }
{
    cuts::item::item_at::<K>(cells, 0, root, position)
}

/// The items before a position, and the rest: at most d · d + 3 · d cells for d levels.
pub fn split_at<K: Kind>(
    cells: &mut [Cell<K::Item, K::Total>],
    free: &mut FreeList,
    root: Root,
    position: u32,
) -> Halves
    requires room { root.levels * root.levels + 3 * root.levels ≤ free.old.count }
    requires sound { Sound cells.old free.old }
    requires whole { Whole cells.old root }
    requires fits { length (list_at cells.old root) < 2 ^ 32 }
    requires within { position < length (list_at cells.old root) }
    ensures made { MadeTwo cells.old cells.new (root.levels * root.levels + 3 * root.levels) result (take position (list_at cells.old root)) (drop position (list_at cells.old root)) }
    ensures right { Right K.Kind.kind cells.old root → Right K.Kind.kind cells.new result.left × Right K.Kind.kind cells.new result.right }
    ensures sound { Sound cells.new free.new }
{
    let parts = splits::split::split::<K>(cells, free, 0, root, position);
    let right = ends::push::push::<K>(cells, free, 0, Side::Front, parts.after, parts.finger);
    Halves {
        left: parts.before,
        right,
    }
}
