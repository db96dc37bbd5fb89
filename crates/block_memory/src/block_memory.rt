// The memory of a run.
use crate::cell::{BlockName, Cell, CellAt};
use crate::frames::Frames;
use crate::shape::BlockShape;
use crate::table::Table;
use pt_base::IntType;
use std::alloc::{AllocError, Global};

/// The blocks of a run, by name. Each has cells and, where these are integers, their types. A name
/// that has no block is as one that has a block of no cells.
///
/// The cells of all locals lie in one vector by depth, and what a function took once is kept for
/// the next one at its depth: entering and leaving move the vector's end.
#[derive(Drop)]
pub struct BlockMemory {
    locals: Frames,
    globals: Table,
    received: Table,
}

#[tactic(auto, unfolding(crate::specs::Memory::blocks_of))]
impl BlockMemory {
    ghost use Rattle.std.specs.Prelude.{◌≡◌, ◌<◌, length, OnOk, OnErr, slice_get, Some};
    ghost use Rattle.block_memory.specs.Block.{no_block, with_cell};
    ghost use Rattle.block_memory.specs.Blocks.{HasRoom, IsFree, no_blocks, put, with_frame, without_frames};
    ghost use Rattle.block_memory.specs.Memory.{blocks_of};

    /// A memory without blocks.
    pub fn new(alloc: Global) -> BlockMemory
        ensures { blocks_of result ≡ no_blocks }
    {
        BlockMemory {
            locals: Frames::new(alloc),
            globals: Table::new(alloc),
            received: Table::new(alloc),
        }
    }

    /// Makes the variables of a function that is entered at this depth, each 0 or null. No local of
    /// this depth or a greater one may be live. Where memory is wanting the blocks stay as they are.
    #[inline]
    pub fn enter(&mut self, depth: u32, vars: &[BlockShape]) -> Result<(), AllocError>
        requires { IsFree (blocks_of self.old) depth }
        ensures ok { OnOk result (blocks_of self.new ≡ with_frame (blocks_of self.old) depth vars.now) }
        ensures err { OnErr result (blocks_of self.new ≡ blocks_of self.old) }
    {
        self.locals.enter(depth, vars)
    }

    /// Ends the variables of this depth, and of greater ones if there are any.
    #[inline]
    pub fn leave(&mut self, depth: u32)
        ensures { blocks_of self.new ≡ without_frames (blocks_of self.old) depth }
    {
        self.locals.leave(depth);
    }

    /// What stands in a cell that is there.
    #[inline]
    pub fn read(&self, at: CellAt) -> Cell
        requires { at.cell < length (blocks_of self.now at.block).cells }
        ensures { slice_get (blocks_of self.now at.block).cells at.cell ≡ Some result }
    {
        let cell = at.cell as usize;
        match at.block {
            BlockName::Local { depth, var } => self.locals.read(depth, var, cell),
            BlockName::Global(number) => self.globals.read(number as usize, cell),
            BlockName::Received(number) => self.received.read(number as usize, cell),
        }
    }

    /// Writes a cell that is there. All others stay.
    #[inline]
    pub fn write(&mut self, at: CellAt, c: Cell)
        requires { at.cell < length (blocks_of self.old at.block).cells }
        ensures { blocks_of self.new ≡ put (blocks_of self.old) at.block (with_cell (blocks_of self.old at.block) at.cell c) }
    {
        let cell = at.cell as usize;
        match at.block {
            BlockName::Local { depth, var } => self.locals.write(depth, var, cell, c),
            BlockName::Global(number) => self.globals.write(number as usize, cell, c),
            BlockName::Received(number) => self.received.write(number as usize, cell, c),
        }
    }

    /// Lends the cells of a block, none where the name has no block.
    pub fn block(&self, name: BlockName) -> &[Cell]
        ensures { result.now ≡ (blocks_of self.now name).cells }
    {
        match name {
            BlockName::Local { depth, var } => self.locals.cells(depth, var),
            BlockName::Global(number) => self.globals.cells(number as usize),
            BlockName::Received(number) => self.received.cells(number as usize),
        }
    }

    /// Lends the types of a block's cells, none where it is a pointer's or the name has no block.
    pub fn types(&self, name: BlockName) -> &[IntType]
        ensures { result.now ≡ (blocks_of self.now name).types }
    {
        match name {
            BlockName::Local { depth, var } => self.locals.types(depth, var),
            BlockName::Global(number) => self.globals.types(number as usize),
            BlockName::Received(number) => self.received.types(number as usize),
        }
    }

    /// Puts a block under a name, in the place of one that is there. With no cells it takes the
    /// name's block away. A local keeps its types and its number of cells. All other blocks stay,
    /// and all of them where memory is wanting.
    pub fn put_block(
        &mut self,
        name: BlockName,
        types: &[IntType],
        cells: &[Cell],
    ) -> Result<(), AllocError>
        requires as_many { length types.now ≡ length cells.now }
        requires room { HasRoom (blocks_of self.old) name types.now (length cells.now) }
        ensures ok { OnOk result (blocks_of self.new ≡ put (blocks_of self.old) name (record { types = types.now; cells = cells.now })) }
        ensures err { OnErr result (blocks_of self.new ≡ blocks_of self.old) }
    {
        match name {
            BlockName::Local { depth, var } => {
                self.locals.put(depth, var, cells);
                Ok(())
            }
            BlockName::Global(number) => self.globals.put(number as usize, types, cells),
            BlockName::Received(number) => self.received.put(number as usize, types, cells),
        }
    }
}
