// The cells of one block, by themselves.
use block_memory::Cell;
use std::alloc::{AllocError, Global};
use std::marker::Model;

/// Cells. Contracts see it as their list.
#[derive(Drop)]
pub(crate) struct Cells {
    cells: Vec<Cell>,
}

impl Model for Cells {
    ghost use Rattle.std.specs.Prelude.{List};
    ghost use Rattle.block_memory.specs.declared.cell.Cell.{Cell};

    ghost Value = { List Cell };

    ghost view = { λ c. c.cells.items };
}

impl Cells {
    ghost use Rattle.std.specs.Prelude.{◌≡◌, [], ◌∷◌, length, IfOk, replicate, slice_set};
    ghost use Rattle.block_memory.specs.declared.cell.Cell.TheVariants.{Ptr};

    /// These cells.
    pub(crate) fn new(cells: Vec<Cell>) -> Cells
        ensures { result ≡ cells.items }
    {
        Cells { cells }
    }

    #[inline]
    pub(crate) fn as_slice(&self) -> &[Cell]
        ensures { result.now ≡ self.now }
    {
        self.cells.as_slice()
    }

    /// Replaces one cell, if it is there.
    #[inline]
    pub(crate) fn write(&mut self, cell: usize, value: Cell)
        ensures { self.new ≡ slice_set self.old cell value }
    {
        if cell < self.cells.len() {
            self.cells[cell] = value;
        }
    }

    /// Makes each of them this one.
    pub(crate) fn fill(&mut self, value: &Cell)
        ensures { self.new ≡ replicate (length self.old) value.now }
    {
        for at in 0..self.cells.len() {
            self.cells[at] = *value;
        }
    }
}
