// A tree in two, at the item at a position.
ghost use Rattle.std.specs.Prelude.{suc, ◌+◌, ◌*◌, ◌^◌, ◌<◌, ◌≤◌};
ghost use Rattle.model.specs.Tree.{count_node, count_run, count};
ghost use Rattle.model.specs.Split.{in_node, in_middle};
ghost use Rattle.model.specs.Split.{split as split_of};
ghost use Rattle.model.specs.Forms.{FormedNode, Each, Formed};
ghost use Rattle.cells.specs.Cells.{end, node, nodes, rooted};
ghost use Rattle.cells.specs.Chain.{Sound, free_cells};
ghost use Rattle.cells.specs.Fingers.{listed, listed_some};
ghost use Rattle.cuts.specs.Cuts.{cut_at};
ghost use Rattle.splits.specs.Halves.{at_side, parts_at, MadeParts};

use super::some::tree_some;
use cells::cell::{Cell, EMPTY, FreeList, Root};
use cells::fingers::Digit;
use cells::read::{fingers_of, view};
use cells::side::Side;
use cells::view::View;
use cuts::cut::{Split, cut_digit};
use cuts::part::{Part, part_at};
use ends::pop::trim;
use kinds::Kind;

/// The halves of a level that is cut at a side. `far` are the fingers at the other.
pub fn halve_at<K: Kind>(
    cells: &mut [Cell<K::Item, K::Total>],
    free: &mut FreeList,
    level: u32,
    side: Side,
    cut: Split<Option<Digit>>,
    middle: Root,
    far: Digit,
) -> Split<Root>
    requires room { middle.levels + 1 < free_cells cells.old }
    requires sound { Sound cells.old free.old }
    requires shallow { level + 1 + middle.levels < 64 }
    requires before { Each level (nodes cells.old level (listed_some cut.before)) }
    requires here { FormedNode level (node cells.old level cut.finger) }
    requires after { Each level (nodes cells.old level (listed_some cut.after)) }
    requires middle { Formed (suc level) (rooted cells.old (suc level) middle) }
    requires far { Each level (nodes cells.old level (listed far)) }
    requires fits { count_run (nodes cells.old level (listed_some cut.before)) + (count_run (nodes cells.old level (listed_some cut.after)) + (count (rooted cells.old (suc level) middle) + count_run (nodes cells.old level (listed far)))) < 2 ^ 32 }
    ensures made { MadeParts cells.old cells.new (middle.levels + 2) level result (at_side K.Kind.kind (end side) (rooted cells.old (suc level) middle) (nodes cells.old level (listed far)) (cut_at cells.old level cut)) }
    ensures sound { Sound cells.new free.new }
{
    let (outer, inner) = side.ordered(cut.before, cut.after);
    let part = tree_some::<K>(cells, free, level, side.opposite(), outer);
    let rest = trim::<K>(cells, free, level, side, inner, middle, far);
    let (left, right) = side.ordered(part, rest);
    Split {
        before: left,
        finger: cut.finger,
        offset: cut.offset,
        after: right,
    }
}

/// The halves of a level that is cut in its middle: `halves` are the middle's, and the cut is of the node between them.
pub fn halve_middle<K: Kind>(
    cells: &mut [Cell<K::Item, K::Total>],
    free: &mut FreeList,
    level: u32,
    front: Digit,
    halves: Split<Root>,
    cut: Split<Option<Digit>>,
    back: Digit,
) -> Split<Root>
    requires room { halves.before.levels + halves.after.levels + 1 < free_cells cells.old }
    requires sound { Sound cells.old free.old }
    requires shallow { level + 1 + (halves.before.levels + halves.after.levels) < 64 }
    requires before { Each level (nodes cells.old level (listed_some cut.before)) }
    requires here { FormedNode level (node cells.old level cut.finger) }
    requires after { Each level (nodes cells.old level (listed_some cut.after)) }
    requires front { Each level (nodes cells.old level (listed front)) }
    requires left { Formed (suc level) (rooted cells.old (suc level) halves.before) }
    requires right { Formed (suc level) (rooted cells.old (suc level) halves.after) }
    requires back { Each level (nodes cells.old level (listed back)) }
    requires fits { (count_run (nodes cells.old level (listed_some cut.before)) + (count (rooted cells.old (suc level) halves.before) + count_run (nodes cells.old level (listed front)))) + (count_run (nodes cells.old level (listed_some cut.after)) + (count (rooted cells.old (suc level) halves.after) + count_run (nodes cells.old level (listed back)))) < 2 ^ 32 }
    ensures made { MadeParts cells.old cells.new (halves.before.levels + halves.after.levels + 2) level result (in_node K.Kind.kind (nodes cells.old level (listed front)) (rooted cells.old (suc level) halves.before) (rooted cells.old (suc level) halves.after) (nodes cells.old level (listed back)) (cut_at cells.old level cut)) }
    ensures sound { Sound cells.new free.new }
{
    let before = trim::<K>(
        cells,
        free,
        level,
        Side::Back,
        cut.before,
        halves.before,
        front,
    );
    let after = trim::<K>(
        cells,
        free,
        level,
        Side::Front,
        cut.after,
        halves.after,
        back,
    );
    Split {
        before,
        finger: cut.finger,
        offset: cut.offset,
        after,
    }
}

/// The halves of a level whose middle is cut already: `halves` are the middle's.
pub fn halve_below<K: Kind>(
    cells: &mut [Cell<K::Item, K::Total>],
    free: &mut FreeList,
    level: u32,
    front: Digit,
    halves: Split<Root>,
    back: Digit,
) -> Split<Root>
    requires room { halves.before.levels + halves.after.levels + 1 < free_cells cells.old }
    requires sound { Sound cells.old free.old }
    requires shallow { level + 1 + (halves.before.levels + halves.after.levels) < 64 }
    requires front { Each level (nodes cells.old level (listed front)) }
    requires left { Formed (suc level) (rooted cells.old (suc level) halves.before) }
    requires here { FormedNode (suc level) (node cells.old (suc level) halves.finger) }
    requires within { halves.offset < count_node (node cells.old (suc level) halves.finger) }
    requires right { Formed (suc level) (rooted cells.old (suc level) halves.after) }
    requires back { Each level (nodes cells.old level (listed back)) }
    requires fits { count_run (nodes cells.old level (listed front)) + (count (rooted cells.old (suc level) halves.before) + (count_node (node cells.old (suc level) halves.finger) + (count (rooted cells.old (suc level) halves.after) + count_run (nodes cells.old level (listed back))))) < 2 ^ 32 }
    ensures made { MadeParts cells.old cells.new (halves.before.levels + halves.after.levels + 2) level result (in_middle K.Kind.kind (nodes cells.old level (listed front)) (nodes cells.old level (listed back)) (parts_at cells.old (suc level) halves)) }
    ensures sound { Sound cells.new free.new }
{
    let parts = fingers_of::<K>(cells, level, Side::Front, halves.finger);
    let cut = cut_digit::<K>(cells, level, halves.offset, None, parts);
    halve_middle::<K>(cells, free, level, front, halves, cut, back)
}

/// A tree in two, at the item at a position.
pub fn split<K: Kind>(
    cells: &mut [Cell<K::Item, K::Total>],
    free: &mut FreeList,
    level: u32,
    root: Root,
    position: u32,
) -> Split<Root>
    requires room { root.levels * root.levels + root.levels ≤ free_cells cells.old }
    requires sound { Sound cells.old free.old }
    requires shallow { level + 2 * root.levels < 64 }
    requires formed { Formed level (rooted cells.old level root) }
    requires fits { count (rooted cells.old level root) < 2 ^ 32 }
    requires within { position < count (rooted cells.old level root) }
    ensures made { MadeParts cells.old cells.new (root.levels * root.levels + root.levels) level result (split_of K.Kind.kind position (rooted cells.old level root)) }
    ensures sound { Sound cells.new free.new }
{
    match view::<K>(cells, level, Side::Front, root) {
        View::Empty => unreachable(),
        View::Single { finger } => Split {
            before: EMPTY,
            finger,
            offset: position,
            after: EMPTY,
        },
        View::Deep { near, middle, far } => {
            match part_at::<K>(cells, level, near, middle, position) {
                Part::Front(place) => {
                    let cut = cut_digit::<K>(cells, level, place, None, near);
                    halve_at::<K>(cells, free, level, Side::Front, cut, middle, far)
                }
                Part::Middle(place) => {
                    let halves = split::<K>(cells, free, level + 1, middle, place);
                    halve_below::<K>(cells, free, level, near, halves, far)
                }
                Part::Back(place) => {
                    let cut = cut_digit::<K>(cells, level, place, None, far.reversed());
                    halve_at::<K>(cells, free, level, Side::Back, cut, middle, near)
                }
            }
        }
    }
}
