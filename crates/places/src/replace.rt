// A tree with another item at a position.
ghost use Rattle.std.specs.Prelude.{◌≡◌, ◌+◌, ◌*◌, ◌^◌, ◌<◌, ◌≤◌, slice_set};
ghost use Rattle.model.specs.Tree.{count_node, count_run, count, items};
ghost use Rattle.model.specs.Replace.{swap, replaced_node};
ghost use Rattle.model.specs.Replace.{replaced as replaced_tree};
ghost use Rattle.model.specs.Forms.{FormedNode, Each, Formed};
ghost use Rattle.cells.specs.Cells.{node, nodes, rooted};
ghost use Rattle.cells.specs.Chain.{Sound, free_cells};
ghost use Rattle.cells.specs.Fingers.{listed};
ghost use Rattle.cells.specs.Made.{MadeNode, MadeTree, MadeRun};

use cells::build::{make_deep, make_node, make_single};
use cells::cell::{Body, Cell, FreeList, Root};
use cells::digits::count_of;
use cells::fingers::Digit;
use cells::free::take_cell;
use cells::read::{fingers_of, view};
use cells::side::Side;
use cells::view::View;
use cuts::cut::cut_digit;
use cuts::part::{Part, part_at};
use kinds::Kind;

/// A node with another item at a position.
#[cycle(node)]
pub fn replace_node<K: Kind>(
    cells: &mut [Cell<K::Item, K::Total>],
    free: &mut FreeList,
    level: u32,
    at: u32,
    position: u32,
    item: K::Item,
) -> u32
    requires room { level < free_cells cells.old }
    requires sound { Sound cells.old free.old }
    requires formed { FormedNode level (node cells.old level at) }
    requires fits { count_node (node cells.old level at) < 2 ^ 32 }
    requires within { position < count_node (node cells.old level at) }
    ensures made { MadeNode cells.old cells.new (level + 1) level result (replaced_node K.Kind.kind item level position (node cells.old level at)) }
    ensures sound { Sound cells.new free.new }
{
    if level == 0 {
        return take_cell(cells, free, Body::Item { item });
    }
    let parts = fingers_of::<K>(cells, level - 1, Side::Front, at);
    let changed = replace_in::<K>(cells, free, level - 1, parts, position, item);
    make_node::<K>(cells, free, level - 1, changed)
}

/// Fingers listed from the left, with another item at a position.
#[cycle(node)]
pub fn replace_in<K: Kind>(
    cells: &mut [Cell<K::Item, K::Total>],
    free: &mut FreeList,
    level: u32,
    digit: Digit,
    position: u32,
    item: K::Item,
) -> Digit
    requires room { level < free_cells cells.old }
    requires sound { Sound cells.old free.old }
    requires formed { Each level (nodes cells.old level (listed digit)) }
    requires fits { count_run (nodes cells.old level (listed digit)) < 2 ^ 32 }
    requires within { position < count_run (nodes cells.old level (listed digit)) }
    ensures made { MadeRun cells.old cells.new (level + 1) level (listed result) (swap (replaced_node K.Kind.kind item level) position (nodes cells.old level (listed digit))) }
    ensures sound { Sound cells.new free.new }
{
    let cut = cut_digit::<K>(cells, level, position, None, digit);
    let finger = replace_node::<K>(cells, free, level, cut.finger, cut.offset, item);
    digit.with_finger(count_of(cut.before), finger)
}

/// A tree with another item at a position.
pub fn replace<K: Kind>(
    cells: &mut [Cell<K::Item, K::Total>],
    free: &mut FreeList,
    level: u32,
    root: Root,
    position: u32,
    item: K::Item,
) -> Root
    requires room { level + 2 * root.levels ≤ free_cells cells.old }
    requires sound { Sound cells.old free.old }
    requires shallow { level + root.levels < 64 }
    requires formed { Formed level (rooted cells.old level root) }
    requires fits { count (rooted cells.old level root) < 2 ^ 32 }
    requires within { position < count (rooted cells.old level root) }
    ensures made { MadeTree cells.old cells.new (level + 2 * root.levels) level result (replaced_tree K.Kind.kind item level position (rooted cells.old level root)) }
    ensures items { items (rooted cells.new level result) ≡ slice_set (items (rooted cells.old level root)) position item }
    ensures sound { Sound cells.new free.new }
{
    match view::<K>(cells, level, Side::Front, root) {
        View::Empty => unreachable(),
        View::Single { finger } => {
            let changed = replace_node::<K>(cells, free, level, finger, position, item);
            make_single::<K>(cells, free, level, changed)
        }
        View::Deep { near, middle, far } => {
            match part_at::<K>(cells, level, near, middle, position) {
                Part::Front(place) => {
                    let front = replace_in::<K>(cells, free, level, near, place, item);
                    make_deep::<K>(cells, free, level, Side::Front, front, middle, far)
                }
                Part::Middle(place) => {
                    let below = replace::<K>(cells, free, level + 1, middle, place, item);
                    make_deep::<K>(cells, free, level, Side::Front, near, below, far)
                }
                Part::Back(place) => {
                    let turned = replace_in::<K>(cells, free, level, far.reversed(), place, item);
                    make_deep::<K>(
                        cells,
                        free,
                        level,
                        Side::Front,
                        near,
                        middle,
                        turned.reversed(),
                    )
                }
            }
        }
    }
}
