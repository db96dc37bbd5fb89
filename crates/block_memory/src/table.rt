// Blocks by number.
use crate::cell::Cell;
use crate::held::HeldBlock;
use pt_base::IntType;
use std::alloc::{AllocError, Global};
use std::marker::Model;

/// Blocks by number. Contracts see it as their list; past its end no number has a block.
#[derive(Drop)]
pub(crate) struct Table {
    alloc: Global,
    blocks: Vec<HeldBlock>,
}

impl Model for Table {
    ghost use Rattle.std.specs.Prelude.{List};
    ghost use Rattle.block_memory.specs.Block.{Block};

    ghost Value = { List Block };

    ghost view = { λ t. t.blocks.items };
}

impl Table {
    ghost use Rattle.std.specs.Prelude.{◌≡◌, ◌<◌, [], length, OnOk, OnErr, slice_get, Some};
    ghost use Rattle.block_memory.specs.Block.{no_block, with_cell};
    ghost use Rattle.block_memory.specs.Table.{numbered, SameBlocks, SetsBlock};

    /// No number has a block.
    pub(crate) fn new(alloc: Global) -> Table
        ensures { result ≡ [] }
    {
        Table {
            alloc,
            blocks: Vec::new(alloc),
        }
    }

    /// The cells of a block, none where the number has none.
    pub(crate) fn cells(&self, number: usize) -> &[Cell]
        ensures { result.now ≡ (numbered self.now number).cells }
    {
        match self.blocks.get(number) {
            Some(block) => block.cells(),
            None => &[],
        }
    }

    /// The types of a block, none where the number has none.
    pub(crate) fn types(&self, number: usize) -> &[IntType]
        ensures { result.now ≡ (numbered self.now number).types }
    {
        match self.blocks.get(number) {
            Some(block) => block.types(),
            None => &[],
        }
    }

    /// One cell of a block.
    #[inline]
    pub(crate) fn read(&self, number: usize, cell: usize) -> Cell
        requires { cell < length (numbered self.now number).cells }
        ensures { slice_get (numbered self.now number).cells cell ≡ Some result }
    {
        self.blocks[number].cells()[cell]
    }

    /// Replaces one cell of a block.
    #[inline]
    pub(crate) fn write(&mut self, number: usize, cell: usize, value: Cell)
        requires { cell < length (numbered self.old number).cells }
        ensures { SetsBlock self.old self.new number (with_cell (numbered self.old number) cell value) }
    {
        self.blocks[number].write(cell, value);
    }

    /// Gives the number this block. All blocks stay as they are where memory is wanting.
    pub(crate) fn put(
        &mut self,
        number: usize,
        types: &[IntType],
        cells: &[Cell],
    ) -> Result<(), AllocError>
        ensures ok { OnOk result (SetsBlock self.old self.new number (record { types = types.now; cells = cells.now })) }
        ensures err { OnErr result (SameBlocks self.old self.new) }
    {
        self.grow(number)?;
        self.blocks[number].set(types, cells)
    }

    // Makes the list longer than this number, by blocks of no cells.
    fn grow(&mut self, number: usize) -> Result<(), AllocError>
        ensures long { OnOk result (number < length self.new) }
        ensures same { SameBlocks self.old self.new }
    {
        while self.blocks.len() <= number {
            self.blocks.push(HeldBlock::new(self.alloc))?;
        }
        Ok(())
    }
}
