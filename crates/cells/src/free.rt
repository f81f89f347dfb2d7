// The taking of a free cell.
ghost use Rattle.std.specs.Prelude.{◌≡◌, ◌<◌, false};
ghost use Rattle.cells.specs.Cells.{is_free};
ghost use Rattle.cells.specs.Chain.{Sound, Taken};

use super::cell::{Body, Cell, FreeList};

/// Has the first free cell hold something, and gives the cell.
pub fn take_cell<I: Copy, T: Copy>(
    cells: &mut [Cell<I, T>],
    free: &mut FreeList,
    body: Body<I, T>,
) -> u32
    requires used { is_free body ≡ false }
    requires some { 0 < free.old.count }
    requires sound { Sound cells.old free.old }
    ensures taken { Taken cells.old cells.new result body }
    ensures sound { Sound cells.new free.new }
{
    let at = free.first;
    let cell = cells[at as usize];
    cells[at as usize] = Cell {
        marked: false,
        link: 0,
        body,
    };
    free.first = cell.link;
    free.count -= 1;
    at
}
