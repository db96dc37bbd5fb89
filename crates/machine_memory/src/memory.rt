// The memory of the step machine.
ghost use Rattle.machine_memory.specs.Frames.{AreSized};

use crate::frame::Frame;
use crate::layout::Layout;
use crate::table::Table;
use block_memory::{BlockName, Cell, CellAt};
use pt_base::IntType;
use std::alloc::{AllocError, Global};

/// The blocks of a run, by name, each cell of an integer kept as a word. A name that has no block
/// is as one that has a block of no cells.
///
/// Each depth of calls has a frame of its own, whose vectors are kept for the next function at that
/// depth. Code that knows the layout of the innermost function reads and writes its words by number.
#[derive(Drop)]
pub struct MachineMemory {
    pub(crate) alloc: Global,
    pub(crate) layouts: Vec<Layout>,
    // By depth. Those from `live` on are kept for their vectors alone.
    pub(crate) frames: Vec<Frame>,
    pub(crate) live: usize,
    pub(crate) globals: Table,
    pub(crate) received: Table,
    ghost sized: { AreSized layouts.items frames.items live },
}

#[tactic(auto, unfolding(crate::specs::Memory::blocks_of, crate::specs::Memory::layouts_of, crate::specs::Memory::frame_at, crate::specs::Memory::live_count))]
impl MachineMemory {
    ghost use Rattle.std.specs.Prelude.{◌≡◌, ℕ, length, OnErr, OnOk, pos, slice_index_or};
    ghost use Rattle.block_memory.specs.declared.cell.Cell.TheVariants.{Int};
    ghost use Rattle.block_memory.specs.Blocks.{HasRoom, no_blocks, put};
    ghost use Rattle.machine_memory.specs.Memory.{blocks_of, IsOpen, layouts_of};

    /// A memory without blocks, for functions of these layouts.
    pub fn new(alloc: Global, layouts: Vec<Layout>) -> MachineMemory
        ensures blocks { blocks_of result ≡ no_blocks }
        ensures layouts { layouts_of result ≡ layouts.items }
    {
        MachineMemory {
            alloc,
            layouts,
            frames: Vec::new(alloc),
            live: 0,
            globals: Table::new(alloc),
            received: Table::new(alloc),
        }
    }

    /// A cell of a block, 0 where it isn't there.
    #[inline]
    pub fn cell(&self, at: CellAt) -> Cell
        ensures { result ≡ slice_index_or (blocks_of self.now at.block).cells at.cell (Int (pos 0)) }
    {
        let cell = at.cell as usize;
        match at.block {
            BlockName::Local { depth, var } => self.local_cell(depth, var, at.cell),
            BlockName::Global(number) => self.globals.cell(number as usize, cell),
            BlockName::Received(number) => self.received.cell(number as usize, cell),
        }
    }

    /// Lends the types of a block's cells, none where it is a pointer's or the name has no block.
    pub fn types(&self, name: BlockName) -> &[IntType]
        ensures { result.now ≡ (blocks_of self.now name).types }
    {
        match name {
            BlockName::Local { depth, var } => self.local_types(depth, var),
            BlockName::Global(number) => self.globals.types(number as usize),
            BlockName::Received(number) => self.received.types(number as usize),
        }
    }

    /// How many cells a block has.
    pub fn count(&self, name: BlockName) -> usize
        ensures { result ≡ length (blocks_of self.now name).cells }
    {
        match name {
            BlockName::Local { depth, var } => self.local_count(depth, var),
            BlockName::Global(number) => self.globals.count(number as usize),
            BlockName::Received(number) => self.received.count(number as usize),
        }
    }

    /// Puts a block under a name, in the place of one that is there. A local keeps its types and
    /// its number of cells. All other blocks stay, and all of them where memory is wanting.
    pub fn put_block(
        &mut self,
        alloc: Global,
        name: BlockName,
        types: &[IntType],
        cells: &[Cell],
    ) -> Result<(), AllocError>
        requires as_many { length types.now ≡ length cells.now }
        requires room { HasRoom (blocks_of self.old) name types.now (length cells.now) }
        ensures ok { OnOk result (blocks_of self.new ≡ put (blocks_of self.old) name (record { types = types.now; cells = cells.now })) }
        ensures err { OnErr result (blocks_of self.new ≡ blocks_of self.old) }
        ensures open { (d : ℕ) → IsOpen self.old d → IsOpen self.new d }
        ensures layouts { layouts_of self.new ≡ layouts_of self.old }
    {
        match name {
            BlockName::Local { depth, var } => self.put_local(alloc, depth, var, cells),
            BlockName::Global(number) => self.globals.put(alloc, number as usize, types, cells),
            BlockName::Received(number) => self.received.put(alloc, number as usize, types, cells),
        }
    }

    /// Replaces all cells of a block by as many others. All other blocks stay, and all of them where
    /// memory is wanting.
    pub fn put_cells(
        &mut self,
        alloc: Global,
        name: BlockName,
        cells: &[Cell],
    ) -> Result<(), AllocError>
        requires { length cells.now ≡ length (blocks_of self.old name).cells }
        ensures ok { OnOk result (blocks_of self.new ≡ put (blocks_of self.old) name (record { types = (blocks_of self.old name).types; cells = cells.now })) }
        ensures err { OnErr result (blocks_of self.new ≡ blocks_of self.old) }
        ensures open { (d : ℕ) → IsOpen self.old d → IsOpen self.new d }
        ensures layouts { layouts_of self.new ≡ layouts_of self.old }
    {
        match name {
            BlockName::Local { depth, var } => self.put_local(alloc, depth, var, cells),
            BlockName::Global(number) => self.globals.put_cells(alloc, number as usize, cells),
            BlockName::Received(number) => self.received.put_cells(alloc, number as usize, cells),
        }
    }
}
