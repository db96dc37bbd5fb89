// Blocks by number.
use crate::held::HeldBlock;
use block_memory::Cell;
use pt_base::IntType;
use std::alloc::{AllocError, Global};
use std::marker::Model;

/// Blocks by number. Contracts see it as their list; past its end no number has a block.
#[derive(Drop)]
pub(crate) struct Table {
    blocks: Vec<HeldBlock>,
}

impl Model for Table {
    ghost use Rattle.std.specs.Prelude.{List};
    ghost use Rattle.block_memory.specs.Block.{Block};

    ghost Value = { List Block };

    ghost view = { λ t. t.blocks.items };
}

impl Table {
    ghost use Rattle.std.specs.Prelude.{◌≡◌, ◌<◌, [], length, IfSome, None, OnOk, OnErr, pos, slice_get, slice_index_or, Some, true, false};
    ghost use Rattle.block_memory.specs.declared.cell.Cell.TheVariants.{Int};
    ghost use Rattle.block_memory.specs.Block.{no_block, with_cell};
    ghost use Rattle.block_memory.specs.Table.{numbered, SameBlocks, SetsBlock};
    ghost use Rattle.word_arithmetic.specs.Words.{number_of};
    ghost use Rattle.machine_memory.specs.Tables.{WritesIn};
    ghost use Rattle.machine_memory.specs.Words.{IsWordOf};

    /// No number has a block.
    pub(crate) fn new(alloc: Global) -> Table
        ensures { result ≡ [] }
    {
        Table {
            blocks: Vec::new(alloc),
        }
    }

    /// The types of a block, none where the number has none.
    pub(crate) fn types(&self, number: usize) -> &[IntType]
        ensures { result.now ≡ (numbered self.now number).types }
    {
        match self.blocks.get(number) {
            Some(block) => block.types(),
            None => &[],
        }
    }

    /// How many cells a block has, none where the number has none.
    pub(crate) fn count(&self, number: usize) -> usize
        ensures { result ≡ length (numbered self.now number).cells }
    {
        match self.blocks.get(number) {
            Some(block) => block.len(),
            None => 0,
        }
    }

    /// A cell of a block, 0 where it isn't there.
    pub(crate) fn cell(&self, number: usize, at: usize) -> Cell
        ensures { result ≡ slice_index_or (numbered self.now number).cells at (Int (pos 0)) }
    {
        match self.blocks.get(number) {
            Some(block) => block.cell(at),
            None => Cell::Int(0),
        }
    }

    /// The word of an integer, if it is there and read so.
    #[inline(always)]
    pub(crate) fn word(&self, number: usize, at: usize, wide: bool) -> Option<i64>
        ensures { IfSome result (λ w. slice_get (numbered self.now number).cells at ≡ Some (Int (number_of wide w))) }
    {
        if number < self.blocks.len() {
            self.blocks[number].word(at, wide)
        } else {
            None
        }
    }

    /// Replaces the word of an integer, if it is there and read so.
    #[inline(always)]
    pub(crate) fn put_word(&mut self, number: usize, at: usize, w: i64, wide: bool) -> bool
        ensures { WritesIn result self.old self.new number at (Int (number_of wide w)) }
    {
        number < self.blocks.len() && self.blocks[number].put_word(at, w, wide)
    }

    /// The word of an integer, if it is there and the words of its block are all read with a sign.
    #[inline(always)]
    pub(crate) fn signed_word(&self, number: usize, at: usize) -> Option<i64>
        ensures { IfSome result (IsWordOf (Some false) (slice_get (numbered self.now number).cells at)) }
    {
        if number < self.blocks.len() {
            self.blocks[number].signed_word(at)
        } else {
            None
        }
    }

    /// The same if they are all read alike.
    #[inline(always)]
    pub(crate) fn alike_word(&self, number: usize, at: usize) -> Option<i64>
        ensures { IfSome result (IsWordOf None (slice_get (numbered self.now number).cells at)) }
    {
        if number < self.blocks.len() {
            self.blocks[number].alike_word(at)
        } else {
            None
        }
    }

    /// Replaces the word of an integer, if it is there and the words of its block are all read with a
    /// sign.
    #[inline(always)]
    pub(crate) fn put_signed(&mut self, number: usize, at: usize, w: i64) -> bool
        ensures { WritesIn result self.old self.new number at (Int (number_of false w)) }
    {
        number < self.blocks.len() && self.blocks[number].put_signed(at, w)
    }

    /// Replaces a cell of a block, if it is there.
    pub(crate) fn write(
        &mut self,
        alloc: Global,
        number: usize,
        at: usize,
        c: Cell,
    ) -> Result<(), AllocError>
        ensures ok { OnOk result (SetsBlock self.old self.new number (with_cell (numbered self.old number) at c)) }
        ensures err { OnErr result (SameBlocks self.old self.new) }
    {
        if number < self.blocks.len() {
            self.blocks[number].write(alloc, at, c)
        } else {
            Ok(())
        }
    }

    /// Gives the number this block. All blocks stay as they are where memory is wanting.
    pub(crate) fn put(
        &mut self,
        alloc: Global,
        number: usize,
        types: &[IntType],
        cells: &[Cell],
    ) -> Result<(), AllocError>
        requires { length types.now ≡ length cells.now }
        ensures ok { OnOk result (SetsBlock self.old self.new number (record { types = types.now; cells = cells.now })) }
        ensures err { OnErr result (SameBlocks self.old self.new) }
    {
        self.grow(alloc, number)?;
        self.blocks[number] = HeldBlock::of(alloc, types, cells)?;
        Ok(())
    }

    /// Replaces all cells of a block by as many others. All blocks stay as they are where memory is
    /// wanting.
    pub(crate) fn put_cells(
        &mut self,
        alloc: Global,
        number: usize,
        cells: &[Cell],
    ) -> Result<(), AllocError>
        requires { length cells.now ≡ length (numbered self.old number).cells }
        ensures ok { OnOk result (SetsBlock self.old self.new number (record { types = (numbered self.old number).types; cells = cells.now })) }
        ensures err { OnErr result (SameBlocks self.old self.new) }
    {
        if number < self.blocks.len() {
            self.blocks[number].put_cells(alloc, cells)
        } else {
            Ok(())
        }
    }

    // Makes the list longer than this number, by blocks of no cells.
    fn grow(&mut self, alloc: Global, number: usize) -> Result<(), AllocError>
        ensures long { OnOk result (number < length self.new) }
        ensures same { SameBlocks self.old self.new }
    {
        while self.blocks.len() <= number {
            self.blocks.push(HeldBlock::new(alloc))?;
        }
        Ok(())
    }
}
