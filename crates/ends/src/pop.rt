// One finger fewer at an end.
ghost use Rattle.std.specs.Prelude.{◌≡◌, ℕ, suc, ◌+◌, ◌*◌, ◌^◌, ◌<◌, ◌≤◌, []};
ghost use Rattle.model.specs.Tree.{count_node, count_run, count};
ghost use Rattle.model.specs.Tree.{none as nothing_left};
ghost use Rattle.model.specs.Ends.{tree_of};
ghost use Rattle.model.specs.Ends.{trim as trimmed};
ghost use Rattle.model.specs.Ends.{pop as popped};
ghost use Rattle.model.specs.Forms.{FormedNode, Each, Formed};
ghost use Rattle.cells.specs.Cells.{end, node, nodes, rooted};
ghost use Rattle.cells.specs.Chain.{Sound, free_cells};
ghost use Rattle.cells.specs.Fingers.{listed};
ghost use Rattle.cells.specs.Made.{MadeTree};
ghost use Rattle.ends.specs.Pops.{popped_of, PoppedWell, popped_levels, count_popped, MadePop};
ghost use Rattle.cells.specs.Fingers.{listed_some};

use cells::build::{make_deep, make_single};
use cells::cell::{Cell, EMPTY, FreeList, Root};
use cells::fingers::Digit;
use cells::read::{fingers_of, view};
use cells::side::Side;
use cells::view::View;
use kinds::Kind;

/// What was at an end of a tree, and the tree without it.
#[derive(Clone, Copy)]
pub struct Popped<A> {
    pub taken: A,
    pub rest: Root,
}

/// Fingers listed from the side, as a tree.
pub fn tree_from<K: Kind>(
    cells: &mut [Cell<K::Item, K::Total>],
    free: &mut FreeList,
    level: u32,
    side: Side,
    digit: Digit,
) -> Root
    requires room { 0 < free_cells cells.old }
    requires sound { Sound cells.old free.old }
    requires shallow { level < 64 }
    requires formed { Each level (nodes cells.old level (listed digit)) }
    requires fits { count_run (nodes cells.old level (listed digit)) < 2 ^ 32 }
    ensures made { MadeTree cells.old cells.new 1 level result (tree_of K.Kind.kind (end side) (nodes cells.old level (listed digit))) }
    ensures sound { Sound cells.new free.new }
{
    let (others, last) = digit.split_last();
    match others {
        None => make_single::<K>(cells, free, level, last),
        Some(near) => make_deep::<K>(cells, free, level, side, near, EMPTY, Digit::of([last])),
    }
}

/// A level whose fingers at the side are gone, where `below` came of a pop of its middle.
pub fn refill<K: Kind>(
    cells: &mut [Cell<K::Item, K::Total>],
    free: &mut FreeList,
    level: u32,
    side: Side,
    below: Option<Popped<u32>>,
    far: Digit,
) -> Root
    requires room { 0 < free_cells cells.old }
    requires sound { Sound cells.old free.old }
    requires shallow { level + popped_levels below < 64 }
    requires below { PoppedWell cells.old (suc level) below }
    requires far { Each level (nodes cells.old level (listed far)) }
    requires fits { count_popped (popped_of cells.old (suc level) below) + count_run (nodes cells.old level (listed far)) < 2 ^ 32 }
    ensures made { MadeTree cells.old cells.new 1 level result (trimmed K.Kind.kind (end side) [] nothing_left (nodes cells.old level (listed far)) (popped_of cells.old (suc level) below)) }
    ensures sound { Sound cells.new free.new }
{
    match below {
        None => tree_from::<K>(cells, free, level, side.opposite(), far),
        Some(inner) => {
            let near = fingers_of::<K>(cells, level, side, inner.taken);
            make_deep::<K>(cells, free, level, side, near, inner.rest, far)
        }
    }
}

/// The finger at a side, and the tree without it, if there is one.
#[cycle(popping)]
pub fn pop<K: Kind>(
    cells: &mut [Cell<K::Item, K::Total>],
    free: &mut FreeList,
    level: u32,
    side: Side,
    root: Root,
) -> Option<Popped<u32>>
    requires room { root.levels ≤ free_cells cells.old }
    requires sound { Sound cells.old free.old }
    requires shallow { level + root.levels < 64 }
    requires formed { Formed level (rooted cells.old level root) }
    requires fits { count (rooted cells.old level root) < 2 ^ 32 }
    ensures made { MadePop cells.old cells.new root.levels level result (popped K.Kind.kind (end side) (rooted cells.old level root)) }
    ensures sound { Sound cells.new free.new }
{
    match view::<K>(cells, level, side, root) {
        View::Empty => None,
        View::Single { finger } => Some(Popped {
            taken: finger,
            rest: EMPTY,
        }),
        View::Deep { near, middle, far } => {
            let (finger, others) = near.split_first();
            let rest = trim::<K>(cells, free, level, side, others, middle, far);
            Some(Popped {
                taken: finger,
                rest,
            })
        }
    }
}

/// A level whose fingers at the side may be gone.
#[cycle(popping)]
pub fn trim<K: Kind>(
    cells: &mut [Cell<K::Item, K::Total>],
    free: &mut FreeList,
    level: u32,
    side: Side,
    near: Option<Digit>,
    middle: Root,
    far: Digit,
) -> Root
    requires room { middle.levels < free_cells cells.old }
    requires sound { Sound cells.old free.old }
    requires shallow { level + 1 + middle.levels < 64 }
    requires near { Each level (nodes cells.old level (listed_some near)) }
    requires middle { Formed (suc level) (rooted cells.old (suc level) middle) }
    requires far { Each level (nodes cells.old level (listed far)) }
    requires fits { count_run (nodes cells.old level (listed_some near)) + (count (rooted cells.old (suc level) middle) + count_run (nodes cells.old level (listed far))) < 2 ^ 32 }
    ensures made { MadeTree cells.old cells.new (middle.levels + 1) level result (trimmed K.Kind.kind (end side) (nodes cells.old level (listed_some near)) (rooted cells.old (suc level) middle) (nodes cells.old level (listed far)) (popped K.Kind.kind (end side) (rooted cells.old (suc level) middle))) }
    ensures sound { Sound cells.new free.new }
{
    match near {
        Some(fingers) => make_deep::<K>(cells, free, level, side, fingers, middle, far),
        None => {
            let below = pop::<K>(cells, free, level + 1, side, middle);
            refill::<K>(cells, free, level, side, below, far)
        }
    }
}
