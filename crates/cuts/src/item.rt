// The item at a position.
ghost use Rattle.std.specs.Prelude.{◌≡◌, ◌+◌, ◌^◌, ◌<◌, slice_index_or};
ghost use Rattle.model.specs.Tree.{front, run, count_node, count_run, count, items_node, items};
ghost use Rattle.model.specs.Forms.{FormedNode, Each, Formed};
ghost use Rattle.cells.specs.Cells.{node, nodes, rooted};
ghost use Rattle.cells.specs.Fingers.{listed};

use super::cut::cut_digit;
use super::part::{Part, part_at};
use cells::cell::{Cell, Root};
use cells::fingers::Digit;
use cells::read::{fingers_of, read_item, view};
use cells::side::Side;
use cells::view::View;
use kinds::Kind;

/// The item at a position of a node.
#[cycle(item)]
pub fn node_item<K: Kind>(
    cells: &[Cell<K::Item, K::Total>],
    level: u32,
    at: u32,
    position: u32,
) -> K::Item
    requires formed { FormedNode level (node cells.now level at) }
    requires within { position < count_node (node cells.now level at) }
    ensures { result ≡ slice_index_or (items_node (node cells.now level at)) position result }
{
    if level == 0 {
        return read_item::<K>(cells, at);
    }
    let parts = fingers_of::<K>(cells, level - 1, Side::Front, at);
    item_in::<K>(cells, level - 1, parts, position)
}

// The item at a position of fingers listed from the left.
#[cycle(item)]
fn item_in<K: Kind>(
    cells: &[Cell<K::Item, K::Total>],
    level: u32,
    digit: Digit,
    position: u32,
) -> K::Item
    requires formed { Each level (nodes cells.now level (listed digit)) }
    requires within { position < count_run (nodes cells.now level (listed digit)) }
    ensures { result ≡ slice_index_or (run front (nodes cells.now level (listed digit))) position result }
{
    let cut = cut_digit::<K>(cells, level, position, None, digit);
    node_item::<K>(cells, level, cut.finger, cut.offset)
}

/// The item at a position of a tree.
pub fn item_at<K: Kind>(
    cells: &[Cell<K::Item, K::Total>],
    level: u32,
    root: Root,
    position: u32,
) -> K::Item
    requires shallow { level + root.levels < 64 }
    requires formed { Formed level (rooted cells.now level root) }
    requires fits { count (rooted cells.now level root) < 2 ^ 32 }
    requires within { position < count (rooted cells.now level root) }
    ensures { result ≡ slice_index_or (items (rooted cells.now level root)) position result }
{
    match view::<K>(cells, level, Side::Front, root) {
        View::Empty => unreachable(),
        View::Single { finger } => node_item::<K>(cells, level, finger, position),
        View::Deep { near, middle, far } => {
            match part_at::<K>(cells, level, near, middle, position) {
                Part::Front(place) => item_in::<K>(cells, level, near, place),
                Part::Middle(place) => item_at::<K>(cells, level + 1, middle, place),
                Part::Back(place) => item_in::<K>(cells, level, far.reversed(), place),
            }
        }
    }
}
