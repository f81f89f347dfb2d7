// The marking of the cells that the kept versions stand on, by a work list that runs through the cells' links. A cell
// enters it as it is marked, and so once: each visit leaves one cell fewer that waits or has no mark.
//
// The cells and the work list are two parameters: one struct of both, with `Ready` as its invariant, was tried. Its steps
// are proved, but whoever lends it the cells learns nothing of what they hold afterwards.
ghost use Rattle.std.specs.Prelude.{◌≡◌, ℕ, ◌^◌, ◌<◌, false, [], ◌∷◌, length};
ghost use Rattle.cells.specs.Cells.{body, marked};
ghost use Rattle.cells.specs.Fingers.{held};
ghost use Rattle.sweep.specs.Kept.{KeptWhole};
ghost use Rattle.sweep.specs.Marks.{AllNear, first_cell, children, root_cell, root_cells, Ready, Marks, popped, Marked};

use super::version::Version;
use cells::cell::{Body, Cell, Root};
use cells::fingers::{Digit, Fingers};

/// The cells that are marked and have still to be visited: how many, and the first; each one's link is the next.
#[derive(Clone, Copy)]
pub struct WorkList {
    pub first: u32,
    pub count: u32,
}

// Marks a cell and puts it on the work list, unless it was marked.
fn mark_cell<I: Copy, T: Copy>(cells: &mut [Cell<I, T>], work: &mut WorkList, at: u32)
    requires ready { Ready cells.old work.old }
    requires near { at < length cells.old }
    ensures { Marks cells.old work.old (at ∷ []) cells.new work.new }
{
    let cell = cells[at as usize];
    if cell.marked {
        return;
    }
    cells[at as usize] = Cell {
        marked: true,
        link: work.first,
        body: cell.body,
    };
    work.first = at;
    work.count += 1;
}

// Marks the fingers of a level, or the parts of a node.
fn mark_fingers<I: Copy, T: Copy>(cells: &mut [Cell<I, T>], work: &mut WorkList, fingers: Fingers)
    requires ready { Ready cells.old work.old }
    requires near { AllNear cells.old (held fingers) }
    ensures { Marks cells.old work.old (held fingers) cells.new work.new }
{
    let Ok(digit) = Digit::try_from(fingers) else {
        return;
    };
    for i in 0..digit.count {
        mark_cell(cells, work, digit.at[usize::from(i)]);
    }
}

// Marks the first cell of a tree, if it has one.
fn mark_first<I: Copy, T: Copy>(cells: &mut [Cell<I, T>], work: &mut WorkList, root: Root)
    requires ready { Ready cells.old work.old }
    requires near { AllNear cells.old (first_cell root) }
    ensures { Marks cells.old work.old (first_cell root) cells.new work.new }
{
    if root.levels > 0 {
        mark_cell(cells, work, root.at);
    }
}

// Marks what stands directly below a cell of this body.
fn mark_children<I: Copy, T: Copy>(cells: &mut [Cell<I, T>], work: &mut WorkList, body: Body<I, T>)
    requires ready { Ready cells.old work.old }
    requires near { AllNear cells.old (children body) }
    ensures { Marks cells.old work.old (children body) cells.new work.new }
{
    match body {
        Body::Free | Body::Item { item: _ } => {}
        Body::Node { weight: _, parts } => mark_fingers(cells, work, parts),
        Body::Single { finger } => mark_cell(cells, work, finger),
        Body::Deep {
            weight: _,
            front,
            middle,
            back,
        } => {
            mark_fingers(cells, work, front);
            mark_first(cells, work, middle);
            mark_fingers(cells, work, back);
        }
    }
}

// Takes the first cell from the work list, and marks its children.
fn visit<I: Copy, T: Copy>(cells: &mut [Cell<I, T>], work: &mut WorkList)
    requires some { 0 < work.old.count }
    requires ready { Ready cells.old work.old }
    requires near { AllNear cells.old (children (body cells.old work.old.first)) }
    ensures { Marks cells.old (popped cells.old work.old) (children (body cells.old work.old.first)) cells.new work.new }
{
    let cell = cells[work.first as usize];
    work.first = cell.link;
    work.count -= 1;
    mark_children(cells, work, cell.body);
}

// Marks the first cell of a version, if one is kept.
fn mark_version<I: Copy, T: Copy>(cells: &mut [Cell<I, T>], work: &mut WorkList, version: Version)
    requires ready { Ready cells.old work.old }
    requires near { AllNear cells.old (root_cell version) }
    ensures { Marks cells.old work.old (root_cell version) cells.new work.new }
{
    if let Some(root) = version.root {
        mark_first(cells, work, root);
    }
}

// Marks the first cell of each kept version.
#[tactic(auto, using(crate::proofs::Marking::version_near))]
fn mark_roots<I: Copy, T: Copy>(cells: &mut [Cell<I, T>], work: &mut WorkList, table: &[Version])
    requires ready { Ready cells.old work.old }
    requires near { AllNear cells.old (root_cells table.now) }
    ensures { Marks cells.old work.old (root_cells table.now) cells.new work.new }
{
    for version in table {
        mark_version(cells, work, *version);
    }
}

/// Marks the cells that the kept versions stand on, and no other.
pub fn mark_all<I: Copy, T: Copy>(cells: &mut [Cell<I, T>], table: &[Version])
    requires few { length cells.old < 2 ^ 32 }
    requires whole { KeptWhole cells.old table.now }
    requires unmarked { (p : ℕ) → marked cells.old p ≡ false }
    ensures { Marked cells.old table.now cells.new }
{
    let mut work = WorkList { first: 0, count: 0 };
    mark_roots(cells, &mut work, table);
    while work.count > 0 {
        visit(cells, &mut work);
    }
}
