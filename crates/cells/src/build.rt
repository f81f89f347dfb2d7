// The making of nodes and levels.
ghost use Rattle.std.specs.Prelude.{suc, ◌+◌, ◌^◌, ◌<◌, ◌≤◌};
ghost use Rattle.model.specs.Tree.{count_run, count};
ghost use Rattle.model.specs.Tree.{single as alone};
ghost use Rattle.model.specs.Ends.{make};
ghost use Rattle.model.specs.Ends.{deep_at as tree_at_side};
ghost use Rattle.model.specs.Replace.{regroup};
ghost use Rattle.model.specs.Forms.{FormedNode, Each, Formed};
ghost use Rattle.cells.specs.Cells.{end, node, nodes, rooted};
ghost use Rattle.cells.specs.Fingers.{listed};
ghost use Rattle.cells.specs.Chain.{Sound, free_cells};
ghost use Rattle.cells.specs.Made.{MadeNode, MadeTree};

use super::cell::{Body, Cell, FreeList, Root};
use super::fingers::Digit;
use super::free::take_cell;
use super::read::{toward, weigh, weigh_run, weigh_tree};
use super::side::Side;
use kinds::Kind;

/// Two or three fingers as one node. They are not summed as the fingers of a digit are, to which nothing is joined at the
/// end: nothing is neutral to fair totals alone.
pub fn make_node<K: Kind>(
    cells: &mut [Cell<K::Item, K::Total>],
    free: &mut FreeList,
    level: u32,
    parts: Digit,
) -> u32
    requires room { 0 < free_cells cells.old }
    requires sound { Sound cells.old free.old }
    requires some { 2 ≤ parts.count }
    requires few { parts.count ≤ 3 }
    requires formed { Each level (nodes cells.old level (listed parts)) }
    requires fits { count_run (nodes cells.old level (listed parts)) < 2 ^ 32 }
    ensures made { MadeNode cells.old cells.new 1 (suc level) result (regroup K.Kind.kind (nodes cells.old level (listed parts))) }
    ensures sound { Sound cells.new free.new }
{
    let [a, b, c, _] = parts.at;
    let first = weigh::<K>(cells, level, a);
    let second = weigh::<K>(cells, level, b);
    let others = if parts.count == 2 {
        second
    } else {
        toward::<K>(Side::Front, second, weigh::<K>(cells, level, c))
    };
    let weight = toward::<K>(Side::Front, first, others);
    take_cell(
        cells,
        free,
        Body::Node {
            weight,
            parts: parts.into(),
        },
    )
}

/// A level of one finger.
pub fn make_single<K: Kind>(
    cells: &mut [Cell<K::Item, K::Total>],
    free: &mut FreeList,
    level: u32,
    finger: u32,
) -> Root
    requires room { 0 < free_cells cells.old }
    requires sound { Sound cells.old free.old }
    requires formed { FormedNode level (node cells.old level finger) }
    ensures made { MadeTree cells.old cells.new 1 level result (alone (node cells.old level finger)) }
    ensures sound { Sound cells.new free.new }
{
    let at = take_cell(cells, free, Body::Single { finger });
    Root { levels: 1, at }
}

/// A level with its fingers in front and behind.
fn deep<K: Kind>(
    cells: &mut [Cell<K::Item, K::Total>],
    free: &mut FreeList,
    level: u32,
    front: Digit,
    middle: Root,
    back: Digit,
) -> Root
    requires room { 0 < free_cells cells.old }
    requires sound { Sound cells.old free.old }
    requires shallow { level + middle.levels < 64 }
    requires front { Each level (nodes cells.old level (listed front)) }
    requires middle { Formed (suc level) (rooted cells.old (suc level) middle) }
    requires back { Each level (nodes cells.old level (listed back)) }
    requires fits { count_run (nodes cells.old level (listed front)) + (count (rooted cells.old (suc level) middle) + count_run (nodes cells.old level (listed back))) < 2 ^ 32 }
    ensures made { MadeTree cells.old cells.new 1 level result (make K.Kind.kind (nodes cells.old level (listed front)) (rooted cells.old (suc level) middle) (nodes cells.old level (listed back))) }
    ensures sound { Sound cells.new free.new }
{
    let first = weigh_run::<K>(cells, level, Side::Front, front);
    let inner = weigh_tree::<K>(cells, level + 1, middle);
    let last = weigh_run::<K>(cells, level, Side::Back, back);
    let weight = toward::<K>(Side::Front, first, toward::<K>(Side::Front, inner, last));
    let at = take_cell(
        cells,
        free,
        Body::Deep {
            weight,
            front: front.into(),
            middle,
            back: back.into(),
        },
    );
    Root {
        levels: middle.levels + 1,
        at,
    }
}

/// A level with its fingers at a side, and those at the other. They and the middle go side by side, here and above: a struct
/// of the three would be made at each call and taken apart in each body.
pub fn make_deep<K: Kind>(
    cells: &mut [Cell<K::Item, K::Total>],
    free: &mut FreeList,
    level: u32,
    side: Side,
    near: Digit,
    middle: Root,
    far: Digit,
) -> Root
    requires room { 0 < free_cells cells.old }
    requires sound { Sound cells.old free.old }
    requires shallow { level + middle.levels < 64 }
    requires near { Each level (nodes cells.old level (listed near)) }
    requires middle { Formed (suc level) (rooted cells.old (suc level) middle) }
    requires far { Each level (nodes cells.old level (listed far)) }
    requires fits { count_run (nodes cells.old level (listed near)) + (count (rooted cells.old (suc level) middle) + count_run (nodes cells.old level (listed far))) < 2 ^ 32 }
    ensures made { MadeTree cells.old cells.new 1 level result (tree_at_side K.Kind.kind (end side) (nodes cells.old level (listed near)) (rooted cells.old (suc level) middle) (nodes cells.old level (listed far))) }
    ensures sound { Sound cells.new free.new }
{
    match side {
        Side::Front => deep::<K>(cells, free, level, near, middle, far),
        Side::Back => deep::<K>(cells, free, level, far, middle, near),
    }
}
