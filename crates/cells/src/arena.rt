// The lent cells with the list of the free ones, and the taking of a free cell.
ghost use Rattle.std.specs.Prelude.{◌≡◌, ◌^◌, ◌<◌, List, length, false};
ghost use Rattle.cells.specs.Cells.{is_free};
ghost use Rattle.cells.specs.Cells.{body as body_of};
ghost use Rattle.cells.specs.Chain.{Sound, Taken, free_cells, free_from};
ghost use Rattle.cells.specs.declared.cell.Cell.{Cell as CellOf};

use super::cell::{Body, Cell, FreeList};
use super::free::take_cell;
use super::read::body_at;
use std::marker::Model;

/// The cells that are lent, and the list of the free ones among them. A contract sees the cells; that the list has all
/// the free cells, each once, and that no cell is marked, holds of every arena: whoever writes a field owes it. Taken apart,
/// an arena gives its cells and a sound list of the free ones, for the functions that make nodes, levels and lists. It is
/// generic in the item and the total, and not in the kind: what a contract sees of a type cannot cite what a kind names.
#[derive(Drop)]
pub struct Arena<'a, I, T> {
    pub cells: &'a mut [Cell<I, T>],
    pub free: FreeList,
}

impl<'a, I, T> Model for Arena<'a, I, T> {
    ghost Value = { List (CellOf I T) };

    ghost view = { λ a. a.cells.now };

    ghost invariant = { λ a. Sound a.cells.now a.free };
}

impl<'a, I: Copy, T: Copy> Arena<'a, I, T> {
    /// The lent cells as an arena, in which all of them are free.
    pub fn new(cells: &'a mut [Cell<I, T>]) -> Arena<'a, I, T>
        requires { length cells.old < 2 ^ 32 }
        ensures free { free_cells result ≡ length result }
        ensures same { length result ≡ length cells.old }
    {
        free_all(cells);
        let count = cells.len() as u32;
        Arena {
            cells,
            free: FreeList { first: 0, count },
        }
    }

    /// The lent cells as an arena, with the list of the free ones among them.
    pub fn of(cells: &'a mut [Cell<I, T>], free: FreeList) -> Arena<'a, I, T>
        requires { Sound cells.old free }
        ensures { result ≡ cells.old }
    {
        Arena { cells, free }
    }

    /// What a cell holds.
    pub fn body(&self, at: u32) -> Body<I, T>
        requires { at < length self.now }
        ensures { result ≡ body_of self.now at }
    {
        body_at(self.cells, at)
    }

    /// How many cells are free.
    pub fn free_count(&self) -> u32
        ensures { result ≡ free_cells self.now }
    {
        self.free.count
    }

    /// Takes a free cell for a body, and gives the cell.
    pub fn take(&mut self, body: Body<I, T>) -> u32
        requires used { is_free body ≡ false }
        requires some { 0 < free_cells self.old }
        ensures { Taken self.old self.new result body }
    {
        take_cell(self.cells, &mut self.free, body)
    }
}

/// Frees all cells, each linked to the next.
fn free_all<I: Copy, T: Copy>(cells: &mut [Cell<I, T>])
    requires { length cells.old < 2 ^ 32 }
    ensures { cells.new ≡ free_from 0 (length cells.old) }
{
    for (i, cell) in cells.iter_mut().enumerate() {
        *cell = Cell {
            marked: false,
            link: i as u32 + 1,
            body: Body::Free,
        };
    }
}
