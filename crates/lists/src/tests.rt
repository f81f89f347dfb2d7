// A list of a thousand items: pushed at both ends by turns, read, cut in two, joined and changed.
ghost use Rattle.std.specs.Prelude.{◌<◌};
ghost use Rattle.cells.specs.Chain.{Sound};
ghost use Rattle.cells.specs.declared.cell.Root.{Root as RootOf};
ghost use Rattle.lists.specs.Lists.{Whole};

use super::{Halves, Popped, item, join, length, pop, push, replace, seek, split_at, total};
use cells::arena::Arena;
use cells::cell::{Body, Cell, EMPTY, FreeList, Root};
use cells::side::Side;
use kinds::{Ask, Counted, Tally, Target, Targets, Within};
use model::levels_for;
use std::process::Abort;
use std::test::Fail;

type Kind = Counted<Targets>;

type Lent = Cell<Target, Tally<u32>>;

const BLANK: Lent = Cell {
    marked: false,
    link: 0,
    body: Body::Free,
};

fn target(number: u16) -> Target {
    Target {
        number,
        range: 10 * number as u32,
    }
}

// One item more, where the cells that a push may need are free.
fn pushed(
    rt: &impl Abort,
    cells: &mut [Lent],
    free: &mut FreeList,
    side: Side,
    item: Target,
    root: Root,
) -> Root
    requires sound { Sound cells.old free.old }
    requires whole { Whole cells.old root }
    ensures whole { Whole cells.new result }
    ensures sound { Sound cells.new free.new }
{
    let size = length::<Kind>(cells, root);
    assert!(rt; size < 65535);
    assert!(rt; 2 * levels_for(size + 1) as u32 <= free.count);
    push::<Kind>(cells, free, side, item, root)
}

// The item at a side and the others, where the cells that a pop may need are free.
fn popped(
    rt: &impl Abort,
    cells: &mut [Lent],
    free: &mut FreeList,
    side: Side,
    root: Root,
) -> Popped<Target>
    requires sound { Sound cells.old free.old }
    requires whole { Whole cells.old root }
    ensures whole { Whole cells.new result.rest }
    ensures stays { (old : RootOf) → Whole cells.old old → Whole cells.new old }
    ensures sound { Sound cells.new free.new }
{
    assert!(rt; length::<Kind>(cells, root) < 65535);
    assert!(rt; root.levels as u32 <= free.count);
    let Some(popped) = pop::<Kind>(cells, free, side, root) else {
        panic!(rt; "nothing to take");
    };
    popped
}

// The list with another item at a position, where the cells that this may need are free.
fn replaced(
    rt: &impl Abort,
    cells: &mut [Lent],
    free: &mut FreeList,
    root: Root,
    position: u32,
    item: Target,
) -> Root
    requires sound { Sound cells.old free.old }
    requires whole { Whole cells.old root }
    ensures whole { Whole cells.new result }
    ensures stays { (old : RootOf) → Whole cells.old old → Whole cells.new old }
    ensures sound { Sound cells.new free.new }
{
    assert!(rt; position < length::<Kind>(cells, root));
    assert!(rt; 2 * root.levels as u32 <= free.count);
    replace::<Kind>(cells, free, root, position, item)
}

// Where a question is met, and how many items stand before.
fn met(cells: &[Lent], root: Root, question: Ask<Within>) -> Option<(u32, u32)>
    requires { Whole cells.now root }
{
    if length::<Kind>(cells, root) >= 65535 {
        return None;
    }
    let found = seek::<Kind>(cells, root, question)?;
    Some((found.position, found.before.count))
}

// The numbers 1 to 1,000, the odd ones at the back and the even ones in front.
fn thousand(rt: &impl Abort, cells: &mut [Lent], free: &mut FreeList) -> Root
    requires { Sound cells.old free.old }
    ensures whole { Whole cells.new result }
    ensures sound { Sound cells.new free.new }
{
    let mut root = EMPTY;
    for number in 1..1001u16 {
        let side = if number % 2 == 1 {
            Side::Back
        } else {
            Side::Front
        };
        root = pushed(rt, cells, free, side, target(number), root);
    }
    root
}

// The number at a position of that list.
fn expected(position: u32) -> u32
    requires { position < 1000 }
{
    if position < 500 {
        1000 - 2 * position
    } else {
        2 * (position - 500) + 1
    }
}

// The list in two, where the cells that this may need are free.
fn parted(
    rt: &impl Abort,
    cells: &mut [Lent],
    free: &mut FreeList,
    root: Root,
    position: u32,
) -> Halves
    requires sound { Sound cells.old free.old }
    requires whole { Whole cells.old root }
    ensures left { Whole cells.new result.left }
    ensures right { Whole cells.new result.right }
    ensures stays { (old : RootOf) → Whole cells.old old → Whole cells.new old }
    ensures sound { Sound cells.new free.new }
{
    let levels = root.levels as u32;
    assert!(rt; position < length::<Kind>(cells, root));
    assert!(rt; levels * levels + 3 * levels <= free.count);
    split_at::<Kind>(cells, free, root, position)
}

// Two lists as one, where the cells that this may need are free.
fn joined(rt: &impl Abort, cells: &mut [Lent], free: &mut FreeList, left: Root, right: Root) -> Root
    requires sound { Sound cells.old free.old }
    requires left { Whole cells.old left }
    requires right { Whole cells.old right }
    ensures whole { Whole cells.new result }
    ensures stays { (old : RootOf) → Whole cells.old old → Whole cells.new old }
    ensures sound { Sound cells.new free.new }
{
    let first = length::<Kind>(cells, left);
    let second = length::<Kind>(cells, right);
    assert!(rt; first < 65535 && second < 65535);
    assert!(rt; 10 * levels_for(first + second) as u32 <= free.count);
    join::<Kind>(cells, free, left, right)
}

// Tells a list from the numbers of the thousand, from one of them on.
fn reads(rt: &impl Abort, cells: &[Lent], root: Root, from: u32, count: u32)
    requires { Whole cells.now root }
{
    assert_eq!(rt; length::<Kind>(cells, root), count);
    for position in 0..count {
        assert!(rt; position < 1000 && from < 1000 && from + position < 1000);
        let found = item::<Kind>(cells, root, position);
        assert_eq!(rt; found.number as u32, expected(from + position));
    }
}

#[test]
fn a_thousand_items(rt: HostRuntime) -> Result<(), Fail> {
    let mut store = vec![in rt.alloc(); BLANK; 40000]?;
    let arena = Arena::new(&mut store);
    let Arena { cells, mut free } = arena;
    let root = thousand(&rt, cells, &mut free);
    reads(&rt, cells, root, 0, 1000);
    let sum = total::<Kind>(cells, root);
    assert_eq!(rt; sum.count, 1000);
    assert_eq!(rt; sum.inner, 10);
    let halves = parted(&rt, cells, &mut free, root, 300);
    reads(&rt, cells, halves.left, 0, 300);
    reads(&rt, cells, halves.right, 300, 700);
    let turned = joined(&rt, cells, &mut free, halves.right, halves.left);
    assert_eq!(rt; length::<Kind>(cells, turned), 1000);
    let again = joined(&rt, cells, &mut free, halves.left, halves.right);
    reads(&rt, cells, again, 0, 1000);
    reads(&rt, cells, root, 0, 1000);
    Ok(())
}

fn at(number: u16, range: u32) -> Target {
    Target { number, range }
}

// The number of the item in front.
fn first(rt: &impl Abort, cells: &[Lent], root: Root) -> u16
    requires { Whole cells.now root }
{
    let size = length::<Kind>(cells, root);
    assert!(rt; 0 < size && size < 65535);
    item::<Kind>(cells, root, 0).number
}

#[test]
fn three_targets(rt: HostRuntime) -> Result<(), Fail> {
    let mut store = vec![in rt.alloc(); BLANK; 100]?;
    let arena = Arena::new(&mut store);
    let Arena { cells, mut free } = arena;
    let one = pushed(&rt, cells, &mut free, Side::Back, at(9, 250), EMPTY);
    let two = pushed(&rt, cells, &mut free, Side::Back, at(7, 250), one);
    let list = pushed(&rt, cells, &mut free, Side::Back, at(4, 900), two);
    assert_eq!(rt; met(cells, list, Ask::Inner(Within(250))), Some((0, 0)));
    assert_eq!(rt; met(cells, list, Ask::Inner(Within(249))), None);
    assert_eq!(rt; met(cells, list, Ask::Item(1)), Some((1, 1)));
    assert_eq!(rt; met(cells, list, Ask::Item(3)), None);
    let nearer = replaced(&rt, cells, &mut free, list, 2, at(4, 100));
    assert_eq!(rt; met(cells, nearer, Ask::Inner(Within(249))), Some((2, 2)));
    let front = popped(&rt, cells, &mut free, Side::Front, list);
    assert_eq!(rt; front.taken, at(9, 250));
    assert_eq!(rt; first(&rt, cells, front.rest), 7);
    let back = popped(&rt, cells, &mut free, Side::Back, front.rest);
    assert_eq!(rt; back.taken, at(4, 900));
    assert_eq!(rt; length::<Kind>(cells, back.rest), 1);
    assert_eq!(rt; met(cells, list, Ask::Inner(Within(249))), None);
    assert_eq!(rt; first(&rt, cells, list), 9);
    Ok(())
}
