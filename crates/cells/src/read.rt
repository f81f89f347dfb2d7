// The reading of nodes and levels.
ghost use Rattle.std.specs.Prelude.{◌≡◌, suc, ◌+◌, ◌^◌, ◌<◌, length};
ghost use Rattle.model.specs.Tree.{leaf, count_node, count_run, count};
ghost use Rattle.model.specs.Measures.{sum_node, sum_run, sum};
ghost use Rattle.model.specs.Measures.{toward as nearer};
ghost use Rattle.model.specs.Ends.{fingers};
ghost use Rattle.model.specs.Forms.{FormedNode, Each, Formed};
ghost use Rattle.cells.specs.Cells.{end, node, nodes, rooted};
ghost use Rattle.cells.specs.Cells.{body as body_of};
ghost use Rattle.cells.specs.Fingers.{listed};
ghost use Rattle.cells.specs.Made.{Weighed, Seen};

use super::arena::Arena;
use super::cell::{Body, Cell, Root, Weight};
use super::fingers::Digit;
use super::side::Side;
use super::view::View;
use kinds::Kind;

/// What a cell holds.
pub fn body_at<I: Copy, T: Copy>(cells: &[Cell<I, T>], at: u32) -> Body<I, T>
    requires { at < length cells.now }
    ensures { result ≡ body_of cells.now at }
{
    cells[at as usize].body
}

/// What a node comes to.
pub fn weigh<K: Kind>(cells: &[Cell<K::Item, K::Total>], level: u32, at: u32) -> Weight<K::Total>
    requires { FormedNode level (node cells.now level at) }
    ensures { Weighed (sum_node K.Kind.kind (node cells.now level at)) (count_node (node cells.now level at)) result }
{
    match body_at(cells, at) {
        Body::Item { item } => Weight {
            total: K::measure(item),
            items: 1,
        },
        Body::Node { weight, parts: _ } => weight,
        _ => unreachable(),
    }
}

/// Two weights as one, of which the first is the nearer to the side.
pub fn toward<K: Kind>(
    side: Side,
    near: Weight<K::Total>,
    far: Weight<K::Total>,
) -> Weight<K::Total>
    requires { near.items + far.items < 2 ^ 32 }
    ensures { Weighed (nearer K.Kind.kind (end side) near.total far.total) (near.items + far.items) result }
{
    let items = near.items + far.items;
    match side {
        Side::Front => Weight {
            total: K::join(near.total, far.total),
            items,
        },
        Side::Back => Weight {
            total: K::join(far.total, near.total),
            items,
        },
    }
}

/// What nothing comes to.
pub fn weigh_nothing<K: Kind>() -> Weight<K::Total>
    ensures { Weighed K.Kind.kind.nothing 0 result }
{
    Weight {
        total: K::nothing(),
        items: 0,
    }
}

/// What fingers at a side come to.
pub fn weigh_run<K: Kind>(
    cells: &[Cell<K::Item, K::Total>],
    level: u32,
    side: Side,
    digit: Digit,
) -> Weight<K::Total>
    requires formed { Each level (nodes cells.now level (listed digit)) }
    requires fits { count_run (nodes cells.now level (listed digit)) < 2 ^ 32 }
    ensures { Weighed (sum_run K.Kind.kind (end side) (nodes cells.now level (listed digit))) (count_run (nodes cells.now level (listed digit))) result }
{
    let (finger, rest) = digit.split_first();
    let first = weigh::<K>(cells, level, finger);
    match rest {
        Some(more) => {
            let others = weigh_run::<K>(cells, level, side, more);
            toward::<K>(side, first, others)
        }
        None => toward::<K>(side, first, weigh_nothing::<K>()),
    }
}

/// What a tree comes to.
pub fn weigh_tree<K: Kind>(
    cells: &[Cell<K::Item, K::Total>],
    level: u32,
    root: Root,
) -> Weight<K::Total>
    requires { Formed level (rooted cells.now level root) }
    ensures { Weighed (sum K.Kind.kind (rooted cells.now level root)) (count (rooted cells.now level root)) result }
{
    if root.levels == 0 {
        return weigh_nothing::<K>();
    }
    match body_at(cells, root.at) {
        Body::Single { finger } => weigh::<K>(cells, level, finger),
        Body::Deep {
            weight,
            front: _,
            middle: _,
            back: _,
        } => weight,
        _ => unreachable(),
    }
}

// The first level of a tree, as it is seen from a side. This body and the two below are of any item and total, so that they
// serve lent cells of a kind, and an arena, which has no kind to name.
fn view_of<I: Copy, T: Copy>(cells: &[Cell<I, T>], level: u32, side: Side, root: Root) -> View
    requires { Formed level (rooted cells.now level root) }
    ensures { Seen cells.now level (end side) root result }
{
    if root.levels == 0 {
        return View::Empty;
    }
    match body_at(cells, root.at) {
        Body::Single { finger } => View::Single { finger },
        Body::Deep {
            weight: _,
            front,
            middle,
            back,
        } => {
            let Ok(front) = Digit::try_from(front) else {
                unreachable();
            };
            let Ok(back) = Digit::try_from(back) else {
                unreachable();
            };
            match side {
                Side::Front => View::Deep {
                    near: front,
                    middle,
                    far: back,
                },
                Side::Back => View::Deep {
                    near: back,
                    middle,
                    far: front,
                },
            }
        }
        _ => unreachable(),
    }
}

/// The first level of a tree, as it is seen from a side.
pub fn view<K: Kind>(cells: &[Cell<K::Item, K::Total>], level: u32, side: Side, root: Root) -> View
    requires { Formed level (rooted cells.now level root) }
    ensures { Seen cells.now level (end side) root result }
{
    view_of(cells, level, side, root)
}

// The parts of a node, listed from the side.
fn parts_of<I: Copy, T: Copy>(cells: &[Cell<I, T>], level: u32, side: Side, at: u32) -> Digit
    requires { FormedNode (suc level) (node cells.now (suc level) at) }
    ensures { nodes cells.now level (listed result) ≡ fingers (end side) (node cells.now (suc level) at) }
{
    let Body::Node { weight: _, parts } = body_at(cells, at) else {
        unreachable();
    };
    let Ok(parts) = Digit::try_from(parts) else {
        unreachable();
    };
    match side {
        Side::Front => parts,
        Side::Back => parts.reversed(),
    }
}

/// The parts of a node, listed from the side.
pub fn fingers_of<K: Kind>(
    cells: &[Cell<K::Item, K::Total>],
    level: u32,
    side: Side,
    at: u32,
) -> Digit
    requires { FormedNode (suc level) (node cells.now (suc level) at) }
    ensures { nodes cells.now level (listed result) ≡ fingers (end side) (node cells.now (suc level) at) }
{
    parts_of(cells, level, side, at)
}

// The item that a node of depth 0 is.
fn item_of<I: Copy, T: Copy>(cells: &[Cell<I, T>], at: u32) -> I
    requires { FormedNode 0 (node cells.now 0 at) }
    ensures { node cells.now 0 at ≡ leaf result }
{
    let Body::Item { item } = body_at(cells, at) else {
        unreachable();
    };
    item
}

/// The item that a node of depth 0 is.
pub fn read_item<K: Kind>(cells: &[Cell<K::Item, K::Total>], at: u32) -> K::Item
    requires { FormedNode 0 (node cells.now 0 at) }
    ensures { node cells.now 0 at ≡ leaf result }
{
    item_of(cells, at)
}

impl<I: Copy, T: Copy> Arena<'_, I, T> {
    /// The first level of a tree, as it is seen from a side.
    pub fn view(&self, level: u32, side: Side, root: Root) -> View
        requires { Formed level (rooted self.now level root) }
        ensures { Seen self.now level (end side) root result }
    {
        view_of(self.cells, level, side, root)
    }

    /// The parts of a node, listed from the side.
    pub fn parts(&self, level: u32, side: Side, at: u32) -> Digit
        requires { FormedNode (suc level) (node self.now (suc level) at) }
        ensures { nodes self.now level (listed result) ≡ fingers (end side) (node self.now (suc level) at) }
    {
        parts_of(self.cells, level, side, at)
    }

    /// The item that a node of depth 0 is.
    pub fn item(&self, at: u32) -> I
        requires { FormedNode 0 (node self.now 0 at) }
        ensures { node self.now 0 at ≡ leaf result }
    {
        item_of(self.cells, at)
    }
}
