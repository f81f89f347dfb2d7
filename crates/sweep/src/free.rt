// The pass over the cells that frees those without a mark.
ghost use Rattle.std.specs.Prelude.{◌≡◌, ℕ, ◌+◌, ◌^◌, ◌<◌, true, false, length};
ghost use Rattle.cells.specs.Cells.{body, marked, is_free};
ghost use Rattle.sweep.specs.Frees.{Judged, Judging};

use cells::cell::{Body, Cell, FreeList};

// Takes the mark from a marked cell, and frees any other.
fn judge<I: Copy, T: Copy>(cells: &mut [Cell<I, T>], free: &mut FreeList, at: u32)
    requires near { at < length cells.old }
    requires room { free.old.count + 1 < 2 ^ 32 }
    ensures { Judged cells.old free.old at cells.new free.new }
{
    let cell = cells[at as usize];
    if cell.marked {
        cells[at as usize] = Cell {
            marked: false,
            link: 0,
            body: cell.body,
        };
        return;
    }
    cells[at as usize] = Cell {
        marked: false,
        link: free.first,
        body: Body::Free,
    };
    free.first = at;
    free.count += 1;
}

/// Judges every cell, and lists the free cells anew, in ascending order.
pub fn free_unmarked<I: Copy, T: Copy>(cells: &mut [Cell<I, T>], free: &mut FreeList)
    requires few { length cells.old < 2 ^ 32 }
    requires live { (p : ℕ) → marked cells.old p ≡ true → is_free (body cells.old p) ≡ false }
    ensures { Judging cells.old 0 cells.new free.new }
{
    let count = cells.len() as u32;
    free.first = 0;
    free.count = 0;
    for at in (0..count).rev() {
        judge(cells, free, at);
    }
}
