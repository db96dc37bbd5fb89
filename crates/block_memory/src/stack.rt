// Blocks that are added and dropped at the end, their cells in one growing vector.
ghost use Rattle.std.specs.Prelude.{◌≡◌, ◌<◌, ◌^◌, ◌++◌, pos, replicate, OnErr, OnOk};
ghost use Rattle.block_memory.specs.declared.cell.Cell.TheVariants.{Int};

use crate::cell::{Cell, Pointer};
use crate::shape::BlockShape;
use crate::start::Start;
use pt_base::IntType;
use std::alloc::{AllocError, Global};
use std::marker::Model;

/// A list of blocks. The cells of all of them lie in one vector, one block after another, and so do
/// their types. Contracts see it as the list.
#[derive(Drop)]
pub(crate) struct Stack {
    starts: Vec<Start>,
    types: Vec<IntType>,
    cells: Vec<Cell>,
}

impl Model for Stack {
    ghost use Rattle.std.specs.Prelude.{List};
    ghost use Rattle.block_memory.specs.Block.{Block};

    ghost Value = { List Block };

    ghost use Rattle.block_memory.specs.Stack.{stacked, IsStack};

    ghost view = { λ s. stacked s.starts.items s.types.items s.cells.items };

    ghost invariant = { λ s. IsStack s.starts.items s.types.items s.cells.items };
}

impl Stack {
    ghost use Rattle.std.specs.Prelude.{◌≡◌, ◌+◌, ◌<◌, ◌^◌, [], ◌∷◌, ◌++◌, length, take, map, OnOk, OnErr, slice_get, slice_index_or, slice_set, Some};
    ghost use Rattle.block_memory.specs.Block.{fresh, no_block, with_cell};

    /// No blocks.
    pub(crate) fn new(alloc: Global) -> Stack
        ensures { result ≡ [] }
    {
        Stack {
            starts: Vec::new(alloc),
            types: Vec::new(alloc),
            cells: Vec::new(alloc),
        }
    }

    #[inline]
    pub(crate) fn len(&self) -> usize
        ensures len { result ≡ length self.now }
        ensures small { result < 2 ^ 63 }
    {
        self.starts.len()
    }

    /// Adds a block. Where memory is wanting, one may have been added that has a part of it.
    #[inline]
    pub(crate) fn push(&mut self, shape: &BlockShape) -> Result<(), AllocError>
        ensures ok { OnOk result (self.new ≡ self.old ++ fresh shape.now ∷ []) }
        ensures err { OnErr result (take (length self.old) self.new ≡ self.old) }
    {
        self.starts.push(Start {
            types: self.types.len(),
            cells: self.cells.len(),
        })?;
        match shape {
            BlockShape::OnePointer => self.cells.push(Cell::Ptr(Pointer::Null))?,
            BlockShape::Ints(types) => {
                let types = types.as_slice();
                add_types(&mut self.types, types)?;
                add_zeros(&mut self.cells, types.len())?;
            }
        }
        Ok(())
    }

    /// Adds blocks. Where memory is wanting, some may have been added.
    #[inline]
    pub(crate) fn extend(&mut self, shapes: &[BlockShape]) -> Result<(), AllocError>
        ensures ok { OnOk result (self.new ≡ self.old ++ map fresh shapes.now) }
        ensures err { OnErr result (take (length self.old) self.new ≡ self.old) }
    {
        for shape in shapes {
            self.push(shape)?;
        }
        Ok(())
    }

    /// Keeps the first `count` blocks.
    #[inline]
    pub(crate) fn truncate(&mut self, count: usize)
        ensures { self.new ≡ take count self.old }
    {
        if count < self.starts.len() {
            let start = self.starts[count];
            self.types.truncate(start.types);
            self.cells.truncate(start.cells);
            self.starts.truncate(count);
        }
    }

    /// The cells of a block.
    pub(crate) fn cells(&self, at: usize) -> &[Cell]
        requires { at < length self.now }
        ensures { result.now ≡ (slice_index_or self.now at no_block).cells }
    {
        let start = self.starts[at].cells;
        if at + 1 < self.starts.len() {
            &self.cells[start..self.starts[at + 1].cells]
        } else {
            &self.cells[start..]
        }
    }

    /// The types of a block.
    pub(crate) fn types(&self, at: usize) -> &[IntType]
        requires { at < length self.now }
        ensures { result.now ≡ (slice_index_or self.now at no_block).types }
    {
        let start = self.starts[at].types;
        if at + 1 < self.starts.len() {
            &self.types[start..self.starts[at + 1].types]
        } else {
            &self.types[start..]
        }
    }

    /// One cell of block number `first + var`.
    #[inline]
    pub(crate) fn read(&self, first: usize, var: usize, cell: usize) -> Cell
        requires at { first + var < length self.now }
        requires cell { cell < length (slice_index_or self.now (first + var) no_block).cells }
        ensures { slice_get (slice_index_or self.now (first + var) no_block).cells cell ≡ Some result }
    {
        self.cells[self.starts[first + var].cells + cell]
    }

    /// Replaces one cell of block number `first + var`.
    #[inline]
    pub(crate) fn write(&mut self, first: usize, var: usize, cell: usize, value: Cell)
        requires at { first + var < length self.old }
        requires cell { cell < length (slice_index_or self.old (first + var) no_block).cells }
        ensures { self.new ≡ slice_set self.old (first + var) (with_cell (slice_index_or self.old (first + var) no_block) cell value) }
    {
        let start = self.starts[first + var].cells;
        self.cells[start + cell] = value;
    }
}

// Most variables are one number, which the two below push without a loop.

#[inline]
fn add_types(types: &mut Vec<IntType>, more: &[IntType]) -> Result<(), AllocError>
    ensures ok { OnOk result (types.new.items ≡ types.old.items ++ more.now) }
    ensures err { OnErr result (types.new.items ≡ types.old.items) }
{
    if let [only] = more {
        types.push(*only)?;
        return Ok(());
    }
    types.extend_from_slice(more)
}

#[inline]
fn add_zeros(cells: &mut Vec<Cell>, count: usize) -> Result<(), AllocError>
    requires { count < 2 ^ 63 }
    ensures ok { OnOk result (cells.new.items ≡ cells.old.items ++ replicate count (Int (pos 0))) }
    ensures err { OnErr result (cells.new.items ≡ cells.old.items) }
{
    if count == 1 {
        cells.push(Cell::Int(0))?;
        return Ok(());
    }
    cells.resize(cells.len() + count, Cell::Int(0))
}
