// The first item of a tree by which a question is met.
ghost use Rattle.std.specs.Prelude.{◌≡◌, ◌^◌, ◌<◌};
ghost use Rattle.model.specs.Tree.{count, items};
ghost use Rattle.model.specs.Forms.{Formed};
ghost use Rattle.model.specs.Seek.{seek as first_met};
ghost use Rattle.model.specs.Statements.{Sound};
ghost use Rattle.cells.specs.Cells.{rooted};
ghost use Rattle.seeks.specs.Sought.{sought, Inside, AlikeSought};

use super::spot::locate;
use cells::cell::{Cell, Root};
use cells::read::{weigh_nothing, weigh_tree};
use kinds::Kind;

/// The least position j such that the first j + 1 items meet a question, and what the first j come to. It is no weight: a
/// position is not a count.
#[derive(Clone, Copy)]
pub struct Found<T> {
    pub position: u32,
    pub before: T,
}

/// The question is put to totals of at least one item.
pub fn seek<K: Kind>(
    cells: &[Cell<K::Item, K::Total>],
    question: K::Question,
    root: Root,
) -> Option<Found<K::Total>>
    requires shallow { root.levels < 64 }
    requires formed { Formed 0 (rooted cells.now 0 root) }
    requires fits { count (rooted cells.now 0 root) < 2 ^ 32 }
    ensures right { Sound K.Kind.kind (rooted cells.now 0 root) → sought result ≡ first_met K.Kind.kind question (items (rooted cells.now 0 root)) }
    ensures within { Inside (count (rooted cells.now 0 root)) result }
{
    if root.levels == 0 {
        return None;
    }
    let whole = weigh_tree::<K>(cells, 0, root);
    if !K::meets(whole.total, question) {
        return None;
    }
    let spot = locate::<K>(cells, 0, question, weigh_nothing::<K>(), root);
    Some(Found {
        position: spot.passed.items,
        before: spot.passed.total,
    })
}

/// Items that measure alike give the same answer.
pub fn alike_sought<K: Kind>()
    ensures { AlikeSought K.Kind.kind }
{}
