// One finger more at an end.
ghost use Rattle.std.specs.Prelude.{◌≡◌, ℕ, suc, ◌+◌, ◌-◌, ◌*◌, ◌^◌, ◌<◌, ◌≤◌};
ghost use Rattle.model.specs.Tree.{count_node, count};
ghost use Rattle.model.specs.Tree.{levels as depth};
ghost use Rattle.model.specs.Ends.{three_at as node_at_side};
ghost use Rattle.model.specs.Ends.{push as pushed};
ghost use Rattle.model.specs.Forms.{FormedNode, Formed};
ghost use Rattle.cells.specs.Cells.{end, node, rooted};
ghost use Rattle.cells.specs.Chain.{Sound, free_cells};
ghost use Rattle.cells.specs.Made.{MadeNode, MadeTree};

use cells::build::{make_deep, make_node, make_single};
use cells::cell::{Cell, EMPTY, FreeList, Root};
use cells::fingers::Digit;
use cells::read::view;
use cells::side::Side;
use cells::view::View;
use kinds::Kind;

// A node of three, of which the first is the nearest to the side.
fn three_at<K: Kind>(
    cells: &mut [Cell<K::Item, K::Total>],
    free: &mut FreeList,
    level: u32,
    side: Side,
    near: u32,
    middle: u32,
    far: u32,
) -> u32
    requires room { 0 < free_cells cells.old }
    requires sound { Sound cells.old free.old }
    requires near { FormedNode level (node cells.old level near) }
    requires middle { FormedNode level (node cells.old level middle) }
    requires far { FormedNode level (node cells.old level far) }
    requires fits { count_node (node cells.old level near) + (count_node (node cells.old level middle) + count_node (node cells.old level far)) < 2 ^ 32 }
    ensures made { MadeNode cells.old cells.new 1 (suc level) result (node_at_side K.Kind.kind (end side) (node cells.old level near) (node cells.old level middle) (node cells.old level far)) }
    ensures sound { Sound cells.new free.new }
{
    let (left, right) = side.ordered(near, far);
    make_node::<K>(cells, free, level, Digit::of([left, middle, right]))
}

/// The tree with one finger more at a side.
pub fn push<K: Kind>(
    cells: &mut [Cell<K::Item, K::Total>],
    free: &mut FreeList,
    level: u32,
    side: Side,
    root: Root,
    finger: u32,
) -> Root
    requires room { 2 * depth (pushed K.Kind.kind (end side) (node cells.old level finger) (rooted cells.old level root)) ≤ free_cells cells.old + 1 }
    requires sound { Sound cells.old free.old }
    requires shallow { level + root.levels < 64 }
    requires formed { Formed level (rooted cells.old level root) }
    requires finger { FormedNode level (node cells.old level finger) }
    requires fits { count_node (node cells.old level finger) + count (rooted cells.old level root) < 2 ^ 32 }
    ensures made { MadeTree cells.old cells.new (2 * result.levels - 1) level result (pushed K.Kind.kind (end side) (node cells.old level finger) (rooted cells.old level root)) }
    ensures sound { Sound cells.new free.new }
{
    match view::<K>(cells, level, side, root) {
        View::Empty => make_single::<K>(cells, free, level, finger),
        View::Single { finger: only } => {
            let near = Digit::of([finger]);
            let far = Digit::of([only]);
            make_deep::<K>(cells, free, level, side, near, EMPTY, far)
        }
        View::Deep { near, middle, far } => {
            if near.count < 4 {
                let more = near.prepend(finger);
                return make_deep::<K>(cells, free, level, side, more, middle, far);
            }
            let [first, second, third, fourth] = near.at;
            let three = three_at::<K>(cells, free, level, side, second, third, fourth);
            let below = push::<K>(cells, free, level + 1, side, middle, three);
            let two = Digit::of([finger, first]);
            make_deep::<K>(cells, free, level, side, two, below, far)
        }
    }
}
