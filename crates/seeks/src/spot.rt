// The finger of a level in which a question is first met.
ghost use Rattle.std.specs.Prelude.{◌+◌, ◌^◌, ◌<◌};
ghost use Rattle.model.specs.Tree.{count_run, count};
ghost use Rattle.model.specs.Forms.{Each, Formed};
ghost use Rattle.cells.specs.Cells.{nodes, rooted};
ghost use Rattle.cells.specs.Fingers.{listed};
ghost use Rattle.seeks.specs.Spots.{SpottedRun, SpottedTree};

use cells::cell::{Cell, Root, Weight};
use cells::fingers::Digit;
use cells::read::{fingers_of, toward, view, weigh, weigh_run, weigh_tree};
use cells::side::Side;
use cells::view::View;
use kinds::Kind;

/// A finger, and what the items before it come to.
#[derive(Clone, Copy)]
pub struct Spot<T> {
    pub finger: u32,
    pub passed: Weight<T>,
}

/// The first finger by which the question is met, or the last, of fingers listed from the left; `passed` stands before
/// them.
pub fn spot_digit<K: Kind>(
    cells: &[Cell<K::Item, K::Total>],
    level: u32,
    question: K::Question,
    passed: Weight<K::Total>,
    digit: Digit,
) -> Spot<K::Total>
    requires formed { Each level (nodes cells.now level (listed digit)) }
    requires fits { passed.items + count_run (nodes cells.now level (listed digit)) < 2 ^ 32 }
    ensures { SpottedRun K.Kind.kind cells.now level question passed (nodes cells.now level (listed digit)) result }
{
    let (finger, rest) = digit.split_first();
    let here = Spot { finger, passed };
    let Some(others) = rest else {
        return here;
    };
    let weight = weigh::<K>(cells, level, finger);
    let next = toward::<K>(Side::Front, passed, weight);
    if K::meets(next.total, question) {
        here
    } else {
        spot_digit::<K>(cells, level, question, next, others)
    }
}

/// The finger of a level in which the question is first met, or the last; the tree is not empty.
pub fn locate<K: Kind>(
    cells: &[Cell<K::Item, K::Total>],
    level: u32,
    question: K::Question,
    passed: Weight<K::Total>,
    root: Root,
) -> Spot<K::Total>
    requires some { 0 < root.levels }
    requires shallow { level + root.levels < 64 }
    requires formed { Formed level (rooted cells.now level root) }
    requires fits { passed.items + count (rooted cells.now level root) < 2 ^ 32 }
    ensures { SpottedTree K.Kind.kind cells.now level question passed (rooted cells.now level root) result }
{
    match view::<K>(cells, level, Side::Front, root) {
        View::Empty => unreachable(),
        View::Single { finger } => Spot { finger, passed },
        View::Deep { near, middle, far } => {
            let first = weigh_run::<K>(cells, level, Side::Front, near);
            let inside = toward::<K>(Side::Front, passed, first);
            if K::meets(inside.total, question) {
                return spot_digit::<K>(cells, level, question, passed, near);
            }
            let inner = weigh_tree::<K>(cells, level + 1, middle);
            let past = toward::<K>(Side::Front, inside, inner);
            if middle.levels > 0 && K::meets(past.total, question) {
                let below = locate::<K>(cells, level + 1, question, inside, middle);
                let parts = fingers_of::<K>(cells, level, Side::Front, below.finger);
                return spot_digit::<K>(cells, level, question, below.passed, parts);
            }
            spot_digit::<K>(cells, level, question, past, far.reversed())
        }
    }
}
