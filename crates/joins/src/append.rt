// Two trees as one.
ghost use Rattle.std.specs.Prelude.{◌≡◌, ℕ, suc, ◌+◌, ◌*◌, ◌^◌, ◌<◌, ◌≤◌, ◌∷◌, length};
ghost use Rattle.model.specs.Tree.{count_run, count};
ghost use Rattle.model.specs.Tree.{levels as depth};
ghost use Rattle.model.specs.Append.{pushed};
ghost use Rattle.model.specs.Append.{append as appended};
ghost use Rattle.model.specs.Forms.{Each, Formed};
ghost use Rattle.cells.specs.Cells.{end, nodes, rooted};
ghost use Rattle.cells.specs.Chain.{Sound, free_cells};
ghost use Rattle.cells.specs.Made.{MadeTree};
ghost use Rattle.cells.specs.Fingers.{listed_some};

use super::group::group_row;
use super::row::Row;
use cells::build::make_deep;
use cells::cell::{Cell, FreeList, Root};
use cells::digits::reversed_some;
use cells::fingers::Digit;
use cells::read::view;
use cells::side::Side;
use cells::view::View;
use ends::push::push;
use kinds::Kind;

/// Fingers listed from the side, all pushed.
#[cycle(pushing)]
pub fn push_run<K: Kind>(
    cells: &mut [Cell<K::Item, K::Total>],
    free: &mut FreeList,
    level: u32,
    side: Side,
    run: Option<Digit>,
    root: Root,
) -> Root
    requires room { 2 * (length (listed_some run) * depth (pushed K.Kind.kind (end side) (nodes cells.old level (listed_some run)) (rooted cells.old level root))) ≤ free_cells cells.old }
    requires sound { Sound cells.old free.old }
    requires shallow { level + depth (pushed K.Kind.kind (end side) (nodes cells.old level (listed_some run)) (rooted cells.old level root)) < 64 }
    requires formed { Formed level (rooted cells.old level root) }
    requires run { Each level (nodes cells.old level (listed_some run)) }
    requires fits { count_run (nodes cells.old level (listed_some run)) + count (rooted cells.old level root) < 2 ^ 32 }
    ensures made { MadeTree cells.old cells.new (2 * (length (listed_some run) * result.levels)) level result (pushed K.Kind.kind (end side) (nodes cells.old level (listed_some run)) (rooted cells.old level root)) }
    ensures sound { Sound cells.new free.new }
{
    match run {
        None => root,
        Some(digit) => {
            let (finger, others) = digit.split_first();
            push_after::<K>(cells, free, level, side, finger, others, root)
        }
    }
}

/// A finger and then others, listed from the side, all pushed.
#[cycle(pushing)]
pub fn push_after<K: Kind>(
    cells: &mut [Cell<K::Item, K::Total>],
    free: &mut FreeList,
    level: u32,
    side: Side,
    finger: u32,
    others: Option<Digit>,
    root: Root,
) -> Root
    requires room { 2 * (suc (length (listed_some others)) * depth (pushed K.Kind.kind (end side) (nodes cells.old level (finger ∷ listed_some others)) (rooted cells.old level root))) ≤ free_cells cells.old }
    requires sound { Sound cells.old free.old }
    requires shallow { level + depth (pushed K.Kind.kind (end side) (nodes cells.old level (finger ∷ listed_some others)) (rooted cells.old level root)) < 64 }
    requires formed { Formed level (rooted cells.old level root) }
    requires run { Each level (nodes cells.old level (finger ∷ listed_some others)) }
    requires fits { count_run (nodes cells.old level (finger ∷ listed_some others)) + count (rooted cells.old level root) < 2 ^ 32 }
    ensures made { MadeTree cells.old cells.new (2 * (suc (length (listed_some others)) * result.levels)) level result (pushed K.Kind.kind (end side) (nodes cells.old level (finger ∷ listed_some others)) (rooted cells.old level root)) }
    ensures sound { Sound cells.new free.new }
{
    let more = push_run::<K>(cells, free, level, side, others, root);
    push::<K>(cells, free, level, side, more, finger)
}

/// Two trees as one, with loose fingers between them, listed from the left.
pub fn append<K: Kind>(
    cells: &mut [Cell<K::Item, K::Total>],
    free: &mut FreeList,
    level: u32,
    left: Root,
    loose: Option<Digit>,
    right: Root,
) -> Root
    requires room { 10 * depth (appended K.Kind.kind (rooted cells.old level left) (nodes cells.old level (listed_some loose)) (rooted cells.old level right)) ≤ free_cells cells.old }
    requires sound { Sound cells.old free.old }
    requires shallow { level + depth (appended K.Kind.kind (rooted cells.old level left) (nodes cells.old level (listed_some loose)) (rooted cells.old level right)) < 64 }
    requires left { Formed level (rooted cells.old level left) }
    requires loose { Each level (nodes cells.old level (listed_some loose)) }
    requires right { Formed level (rooted cells.old level right) }
    requires fits { count (rooted cells.old level left) + (count_run (nodes cells.old level (listed_some loose)) + count (rooted cells.old level right)) < 2 ^ 32 }
    ensures made { MadeTree cells.old cells.new (10 * result.levels) level result (appended K.Kind.kind (rooted cells.old level left) (nodes cells.old level (listed_some loose)) (rooted cells.old level right)) }
    ensures sound { Sound cells.new free.new }
{
    match view::<K>(cells, level, Side::Front, left) {
        View::Empty => push_run::<K>(cells, free, level, Side::Front, loose, right),
        View::Single { finger } => push_after::<K>(
            cells,
            free,
            level,
            Side::Front,
            finger,
            loose,
            right,
        ),
        View::Deep {
            near: front,
            middle: inner,
            far: back,
        } => match view::<K>(cells, level, Side::Front, right) {
            View::Empty => push_run::<K>(
                cells,
                free,
                level,
                Side::Back,
                reversed_some(loose),
                left,
            ),
            View::Single { finger: only } => push_after::<K>(
                cells,
                free,
                level,
                Side::Back,
                only,
                reversed_some(loose),
                left,
            ),
            View::Deep { near, middle, far } => {
                let row = Row {
                    first: Some(back.reversed()),
                    second: loose,
                    third: Some(near),
                };
                let grouped = group_row::<K>(cells, free, level, row);
                let below = append::<K>(cells, free, level + 1, inner, Some(grouped), middle);
                make_deep::<K>(cells, free, level, Side::Front, front, below, far)
            }
        },
    }
}
