// Three trees, of which two share an item: what a sweep leaves as their versions are dropped.
ghost use Rattle.std.specs.Prelude.{◌≡◌, true};
ghost use Rattle.cells.specs.Cells.{node, rooted};
ghost use Rattle.cells.specs.Chain.{Extends};
ghost use Rattle.model.specs.Forms.{FormedNode};
ghost use Rattle.model.specs.Tree.{formed};

use super::sweep;
use super::version::Version;
use cells::arena::Arena;
use cells::build::{make_deep, make_node, make_single};
use cells::cell::{Body, Cell, EMPTY, Root};
use cells::fingers::Digit;
use cells::side::Side;
use cells::view::View;
use kinds::{Target, Targets};
use std::process::Abort;
use std::test::Fail;

type Lent<'a> = Arena<'a, Target, u32>;

const BLANK: Cell<Target, u32> = Cell {
    marked: false,
    link: 0,
    body: Body::Free,
};

fn kept(root: Root) -> Version
    ensures { result ≡ record { root = Some root } }
{
    Version { root: Some(root) }
}

fn placed(rt: &impl Abort, arena: &mut Lent<'_>, number: u16) -> u32
    ensures formed { FormedNode 0 (node arena.new 0 result) }
    ensures grown { Extends arena.old arena.new }
{
    assert!(rt; 0 < arena.free_count());
    let item = Target { number, range: 0 };
    arena.take(Body::Item { item })
}

// A tree of one item.
fn single(rt: &impl Abort, arena: &mut Lent<'_>, finger: u32) -> Root
    requires { FormedNode 0 (node arena.old 0 finger) }
    ensures whole { formed result.levels 0 (rooted arena.new 0 result) ≡ true }
    ensures grown { Extends arena.old arena.new }
{
    assert!(rt; 0 < arena.free_count());
    make_single::<Targets>(arena.cells, &mut arena.free, 0, finger)
}

// A tree of two items.
fn pair(rt: &impl Abort, arena: &mut Lent<'_>, first: u32, last: u32) -> Root
    requires first { FormedNode 0 (node arena.old 0 first) }
    requires last { FormedNode 0 (node arena.old 0 last) }
    ensures whole { formed result.levels 0 (rooted arena.new 0 result) ≡ true }
    ensures grown { Extends arena.old arena.new }
{
    assert!(rt; 0 < arena.free_count());
    let (near, far) = (Digit::of([first]), Digit::of([last]));
    make_deep::<Targets>(
        arena.cells,
        &mut arena.free,
        0,
        Side::Front,
        near,
        EMPTY,
        far,
    )
}

// A node of two items.
fn couple(rt: &impl Abort, arena: &mut Lent<'_>, first: u32, last: u32) -> u32
    requires first { FormedNode 0 (node arena.old 0 first) }
    requires last { FormedNode 0 (node arena.old 0 last) }
    ensures formed { FormedNode 1 (node arena.new 1 result) }
    ensures grown { Extends arena.old arena.new }
{
    assert!(rt; 0 < arena.free_count());
    let parts = Digit::of([first, last]);
    make_node::<Targets>(arena.cells, &mut arena.free, 0, parts)
}

// The numbers of the first and the last item of a node: from each side the nearest.
fn outer_parts(arena: &Lent<'_>, at: u32) -> (u16, u16)
    requires { FormedNode 1 (node arena.now 1 at) }
{
    let (first, _) = arena.parts(0, Side::Front, at).split_first();
    let (last, _) = arena.parts(0, Side::Back, at).split_first();
    (arena.item(first).number, arena.item(last).number)
}

// The number of the nearest item of a version, as it is seen from a side; 0 where it has none.
fn nearest(arena: &Lent<'_>, side: Side, root: Root) -> u16
    requires { formed root.levels 0 (rooted arena.now 0 root) ≡ true }
{
    let finger = match arena.view(0, side, root) {
        View::Empty => return 0,
        View::Single { finger } => finger,
        View::Deep {
            near,
            middle: _,
            far: _,
        } => near.split_first().0,
    };
    arena.item(finger).number
}

// The numbers of the first and the last item of a version.
fn outer_items(arena: &Lent<'_>, root: Root) -> (u16, u16)
    requires { formed root.levels 0 (rooted arena.now 0 root) ≡ true }
{
    (
        nearest(arena, Side::Front, root),
        nearest(arena, Side::Back, root),
    )
}

#[test]
fn dropped_versions_leave_their_cells(rt: HostRuntime) -> Result<(), Fail> {
    let mut cells = [BLANK; 8];
    let mut arena = Arena::new(&mut cells);
    let first = placed(&rt, &mut arena, 1);
    let second = placed(&rt, &mut arena, 2);
    let third = placed(&rt, &mut arena, 3);
    let one = single(&rt, &mut arena, first);
    let two = pair(&rt, &mut arena, first, second);
    let _dropped = single(&rt, &mut arena, third);
    assert_eq!(rt; arena.free_count(), 2);
    sweep(&mut arena, &[kept(one), Version { root: None }, kept(two)]);
    assert_eq!(rt; arena.free_count(), 4);
    sweep(&mut arena, &[kept(one)]);
    assert_eq!(rt; arena.free_count(), 6);
    let held = match arena.body(first) {
        Body::Item { item } => item.number,
        _ => 0,
    };
    assert_eq!(rt; held, 1);
    sweep(&mut arena, &[Version { root: None }]);
    assert_eq!(rt; arena.free_count(), 8);
    for number in 0..8u16 {
        let _at = placed(&rt, &mut arena, number);
    }
    assert_eq!(rt; arena.free_count(), 0);
    Ok(())
}

#[test]
fn what_is_kept_is_seen_from_both_sides(rt: HostRuntime) -> Result<(), Fail> {
    let mut cells = [BLANK; 8];
    let mut arena = Arena::new(&mut cells);
    let first = placed(&rt, &mut arena, 1);
    let last = placed(&rt, &mut arena, 2);
    let node = couple(&rt, &mut arena, first, last);
    assert_eq!(rt; outer_parts(&arena, node), (1, 2));
    let one = single(&rt, &mut arena, last);
    let two = pair(&rt, &mut arena, first, last);
    sweep(&mut arena, &[kept(one), kept(two)]);
    assert_eq!(rt; outer_items(&arena, EMPTY), (0, 0));
    assert_eq!(rt; outer_items(&arena, one), (2, 2));
    assert_eq!(rt; outer_items(&arena, two), (1, 2));
    Ok(())
}
