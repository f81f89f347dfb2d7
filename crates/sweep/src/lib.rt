// The sweep: it frees the cells that no kept version stands on.
#![tactic(auto)]

ghost use Rattle.std.specs.Prelude.{◌^◌, ◌<◌, length};
ghost use Rattle.cells.specs.Chain.{Sound};
ghost use Rattle.sweep.specs.Kept.{KeptWhole};
ghost use Rattle.sweep.specs.Swept.{Swept};

mod free;
mod mark;
pub mod version;

use cells::arena::Arena;
use cells::cell::{Cell, FreeList};
use version::Version;

/// Frees the cells that no kept version stands on, and lists the free cells anew.
pub fn sweep<I: Copy, T: Copy>(arena: &mut Arena<'_, I, T>, table: &[Version])
    requires few { length arena.old < 2 ^ 32 }
    requires whole { KeptWhole arena.old table.now }
    ensures { Swept arena.old table.now arena.new }
{
    sweep_cells(arena.cells, &mut arena.free, table);
}

fn sweep_cells<I: Copy, T: Copy>(cells: &mut [Cell<I, T>], free: &mut FreeList, table: &[Version])
    requires few { length cells.old < 2 ^ 32 }
    requires sound { Sound cells.old free.old }
    requires whole { KeptWhole cells.old table.now }
    ensures swept { Swept cells.old table.now cells.new }
    ensures sound { Sound cells.new free.new }
{
    mark::mark_all(cells, table);
    free::free_unmarked(cells, free);
}

#[cfg(test)]
mod tests;
