// Nodes of the fingers of a row.
ghost use Rattle.std.specs.Prelude.{suc, ◌*◌, ◌^◌, ◌<◌, ◌≤◌, length};
ghost use Rattle.model.specs.Tree.{count_run};
ghost use Rattle.model.specs.Append.{group};
ghost use Rattle.model.specs.Forms.{Each};
ghost use Rattle.cells.specs.Cells.{nodes};
ghost use Rattle.cells.specs.Chain.{Sound, free_cells};
ghost use Rattle.cells.specs.Fingers.{listed};
ghost use Rattle.joins.specs.Rows.{in_row};
ghost use Rattle.cells.specs.Made.{MadeRun};

use super::row::Row;
use cells::build::make_node;
use cells::cell::{Cell, FreeList};
use cells::fingers::Digit;
use kinds::Kind;

/// The fingers of a row, two or more, in threes and twos.
pub fn group_row<K: Kind>(
    cells: &mut [Cell<K::Item, K::Total>],
    free: &mut FreeList,
    level: u32,
    mut row: Row,
) -> Digit
    requires room { length (in_row row) ≤ 3 * free_cells cells.old }
    requires sound { Sound cells.old free.old }
    requires long { 2 ≤ length (in_row row) }
    requires formed { Each level (nodes cells.old level (in_row row)) }
    requires fits { count_run (nodes cells.old level (in_row row)) < 2 ^ 32 }
    ensures made { MadeRun cells.old cells.new (length (listed result)) (suc level) (listed result) (group K.Kind.kind (nodes cells.old level (in_row row))) }
    ensures sound { Sound cells.new free.new }
{
    let wide = row.width();
    let first = row.take_first();
    let second = row.take_first();
    if wide == 2 {
        let pair = make_node::<K>(cells, free, level, Digit::of([first, second]));
        return Digit::of([pair]);
    }
    let third = row.take_first();
    if wide == 4 {
        let fourth = row.take_first();
        let left = make_node::<K>(cells, free, level, Digit::of([first, second]));
        let right = make_node::<K>(cells, free, level, Digit::of([third, fourth]));
        return Digit::of([left, right]);
    }
    let three = make_node::<K>(cells, free, level, Digit::of([first, second, third]));
    if wide == 3 {
        return Digit::of([three]);
    }
    let others = group_row::<K>(cells, free, level, row);
    others.prepend(three)
}
