// A block that stands by itself.
use crate::cell::Cell;
use pt_base::IntType;
use std::alloc::{AllocError, Global};
use std::marker::Model;

/// A block. Contracts see it as such.
#[derive(Drop)]
pub(crate) struct HeldBlock {
    types: Vec<IntType>,
    cells: Vec<Cell>,
}

impl Model for HeldBlock {
    ghost use Rattle.block_memory.specs.Block.{Block};

    ghost Value = { Block };

    ghost view = { λ b. record { types = b.types.items; cells = b.cells.items } };
}

impl HeldBlock {
    ghost use Rattle.std.specs.Prelude.{◌≡◌, ◌<◌, length, OnOk, OnErr, slice_get, Some};
    ghost use Rattle.block_memory.specs.Block.{no_block, with_cell};

    /// A block of no cells.
    pub(crate) fn new(alloc: Global) -> HeldBlock
        ensures { result ≡ no_block }
    {
        HeldBlock {
            types: Vec::new(alloc),
            cells: Vec::new(alloc),
        }
    }

    #[inline]
    pub(crate) fn cells(&self) -> &[Cell]
        ensures { result.now ≡ self.now.cells }
    {
        self.cells.as_slice()
    }

    pub(crate) fn types(&self) -> &[IntType]
        ensures { result.now ≡ self.now.types }
    {
        self.types.as_slice()
    }

    /// Replaces one cell.
    #[inline]
    pub(crate) fn write(&mut self, cell: usize, value: Cell)
        requires { cell < length self.old.cells }
        ensures { self.new ≡ with_cell self.old cell value }
    {
        self.cells[cell] = value;
    }

    /// Makes it the block with these types and cells. It stays as it is where memory is wanting.
    pub(crate) fn set(&mut self, types: &[IntType], cells: &[Cell]) -> Result<(), AllocError>
        ensures ok { OnOk result (self.new ≡ record { types = types.now; cells = cells.now }) }
        ensures err { OnErr result (self.new ≡ self.old) }
    {
        self.types
            .reserve(types.len().saturating_sub(self.types.len()))?;
        self.cells
            .reserve(cells.len().saturating_sub(self.cells.len()))?;
        self.types.clear();
        self.types.extend_from_slice(types)?;
        self.cells.clear();
        self.cells.extend_from_slice(cells)?;
        Ok(())
    }
}
