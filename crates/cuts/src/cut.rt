// The cutting of fingers in two.
ghost use Rattle.std.specs.Prelude.{◌≡◌, ◌+◌, ◌<◌, ◌≤◌, length};
ghost use Rattle.model.specs.Tree.{count_run};
ghost use Rattle.model.specs.Split.{cut};
ghost use Rattle.model.specs.Forms.{Each};
ghost use Rattle.cells.specs.Cells.{nodes};
ghost use Rattle.cells.specs.Fingers.{listed, listed_some};
ghost use Rattle.cuts.specs.Cuts.{cut_at};

use cells::cell::Cell;
use cells::digits::prepend_some;
use cells::fingers::Digit;
use cells::read::weigh;
use kinds::Kind;

/// What stands before a finger, that finger, a position among its items, and what stands after it.
#[derive(Clone, Copy)]
pub struct Split<A> {
    pub before: A,
    pub finger: u32,
    pub offset: u32,
    pub after: A,
}

/// Fingers listed from the left, cut at the one that has the position. `passed` are those before them; they and the
/// fingers before the cut are listed from the right. (A seek walks along fingers too, but stops by a question: one walk for
/// both would take a closure for the stop and promise what it promises.)
pub fn cut_digit<K: Kind>(
    cells: &[Cell<K::Item, K::Total>],
    level: u32,
    position: u32,
    passed: Option<Digit>,
    digit: Digit,
) -> Split<Option<Digit>>
    requires few { length (listed_some passed) + digit.count ≤ 4 }
    requires formed { Each level (nodes cells.now level (listed digit)) }
    requires within { position < count_run (nodes cells.now level (listed digit)) }
    ensures { cut_at cells.now level result ≡ cut position (nodes cells.now level (listed_some passed)) (nodes cells.now level (listed digit)) }
{
    let (finger, after) = digit.split_first();
    let weight = weigh::<K>(cells, level, finger);
    if position < weight.items {
        return Split {
            before: passed,
            finger,
            offset: position,
            after,
        };
    }
    let Some(rest) = after else {
        unreachable();
    };
    let more = prepend_some(finger, passed);
    cut_digit::<K>(cells, level, position - weight.items, Some(more), rest)
}
