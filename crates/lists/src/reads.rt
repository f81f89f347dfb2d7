// What a list comes to.
ghost use Rattle.std.specs.Prelude.{◌≡◌, length as size};
ghost use Rattle.model.specs.Measures.{total as sum};
ghost use Rattle.lists.specs.Lists.{list_at, Whole, Right};

use cells::cell::{Cell, Root};
use cells::read::weigh_tree;
use kinds::Kind;

/// How many items the list has.
pub fn length<K: Kind>(cells: &[Cell<K::Item, K::Total>], root: Root) -> u32
    requires { Whole cells.now root }
    ensures { result ≡ size (list_at cells.now root) }
{
    weigh_tree::<K>(cells, 0, root).items
}

/// What the items come to, where the stored totals are right.
pub fn total<K: Kind>(cells: &[Cell<K::Item, K::Total>], root: Root) -> K::Total
    requires { Whole cells.now root }
    ensures { Right K.Kind.kind cells.now root → result ≡ sum K.Kind.kind (list_at cells.now root) }
{
    weigh_tree::<K>(cells, 0, root).total
}
