// Writing: cells of every block, and frames that are opened for it.
ghost use Rattle.std.specs.Prelude.{◌≡◌, ◌<◌, ◌≤◌, ◌∷◌, [], length, IfOk, map, slice_index_or};
ghost use Rattle.block_memory.specs.declared.cell.Cell.TheVariants.{Ptr};
ghost use Rattle.block_memory.specs.declared.cell.Pointer.TheVariants.{Null};
ghost use Rattle.block_memory.specs.Block.{Block};
ghost use Rattle.machine_memory.specs.Layouts.{integers, pointers};
ghost use Rattle.machine_memory.specs.Frames.{IsSized, layout_in};
ghost use Rattle.machine_memory.specs.Words.{local_blocks};

use crate::cells::Cells;
use crate::flat::Flat;
use crate::frame::Frame;
use crate::layout::Layout;
use crate::memory::MachineMemory;
use crate::packing::{unpacked, word_for};
use crate::place::Found;
use crate::variables::find_in;
use block_memory::{BlockName, BlockShape, Cell, CellAt};
use std::alloc::{AllocError, Global};

#[tactic(auto, unfolding(crate::specs::Memory::blocks_of, crate::specs::Memory::layouts_of, crate::specs::Memory::frame_at, crate::specs::Memory::live_count))]
impl MachineMemory {
    ghost use Rattle.std.specs.Prelude.{◌≡◌, ◌<◌, ℕ, length, OnErr, OnOk};
    ghost use Rattle.block_memory.specs.declared.cell.BlockName.TheVariants.{Local};
    ghost use Rattle.block_memory.specs.Block.{with_cell};
    ghost use Rattle.block_memory.specs.Blocks.{HasRoom, put};
    ghost use Rattle.machine_memory.specs.Memory.{blocks_of, IsOpen, layouts_of, live_count, Stands};
    ghost use Rattle.machine_memory.specs.Puts.{Puts};

    /// Writes a cell, if it is there. All others stay, and all of them where memory is wanting.
    pub fn write(&mut self, alloc: Global, at: CellAt, c: Cell) -> Result<(), AllocError>
        ensures ok { OnOk result (blocks_of self.new ≡ put (blocks_of self.old) at.block (with_cell (blocks_of self.old at.block) at.cell c)) }
        ensures err { OnErr result (blocks_of self.new ≡ blocks_of self.old) }
        ensures layouts { layouts_of self.new ≡ layouts_of self.old }
    {
        let cell = at.cell as usize;
        match at.block {
            BlockName::Local { depth, var } => self.write_local(alloc, depth, var, at.cell, c),
            BlockName::Global(number) => self.globals.write(alloc, number as usize, cell, c),
            BlockName::Received(number) => self.received.write(alloc, number as usize, cell, c),
        }
    }

    fn write_local(
        &mut self,
        alloc: Global,
        depth: u32,
        var: u32,
        cell: u32,
        c: Cell,
    ) -> Result<(), AllocError>
        ensures ok { OnOk result (blocks_of self.new ≡ put (blocks_of self.old) (Local depth var) (with_cell (blocks_of self.old (Local depth var)) cell c)) }
        ensures err { OnErr result (blocks_of self.new ≡ blocks_of self.old) }
        ensures layouts { layouts_of self.new ≡ layouts_of self.old }
    {
        if self.write_closed(depth, var, cell, &c) {
            return Ok(());
        }
        self.open(alloc, depth)?;
        self.write_opened(depth, var, cell, c);
        Ok(())
    }

    // Writes a cell of a closed frame, if its word or its entry holds it.
    fn write_closed(&mut self, depth: u32, var: u32, cell: u32, c: &Cell) -> bool
        ensures written { Puts result (blocks_of self.old) (blocks_of self.new) (Local depth var) cell c.now }
        ensures layouts { layouts_of self.new ≡ layouts_of self.old }
    {
        if depth as usize >= self.live || self.frames[depth as usize].is_open() {
            return false;
        }
        let number = self.frames[depth as usize].layout();
        match find_in(&self.layouts, number, var, cell) {
            Found::Integer(place) => match word_for(place.ty, *c) {
                Some(w) => {
                    self.set_word_in(depth, number, place.at, w);
                    true
                }
                None => false,
            },
            Found::Pointer(at) => match c {
                Cell::Ptr(p) => {
                    self.set_pointer_in(depth, number, at, Flat::of(*p));
                    true
                }
                Cell::Int(_) | Cell::Sealed(_) => false,
            },
            Found::Missing => false,
        }
    }

    // Writes a cell of an open frame, if it is there.
    pub(crate) fn write_opened(&mut self, depth: u32, var: u32, cell: u32, c: Cell)
        requires { depth < live_count self.old → IsOpen self.old depth }
        ensures written { blocks_of self.new ≡ put (blocks_of self.old) (Local depth var) (with_cell (blocks_of self.old (Local depth var)) cell c) }
        ensures open { (d : ℕ) → IsOpen self.old d → IsOpen self.new d }
        ensures stands { (d l : ℕ) → Stands self.old d l → Stands self.new d l }
        ensures layouts { layouts_of self.new ≡ layouts_of self.old }
    {
        let at = depth as usize;
        if at < self.live {
            self.frames[at].write(var as usize, cell as usize, c);
        }
    }

    /// Writes the first cell of a variable of a frame that is open.
    pub fn write_open(&mut self, depth: u32, var: u32, c: Cell)
        requires { IsOpen self.old depth }
        ensures written { blocks_of self.new ≡ put (blocks_of self.old) (Local depth var) (with_cell (blocks_of self.old (Local depth var)) 0 c) }
        ensures open { (d : ℕ) → IsOpen self.old d → IsOpen self.new d }
        ensures layouts { layouts_of self.new ≡ layouts_of self.old }
    {
        self.write_opened(depth, var, 0, c);
    }

    /// Replaces all cells of a variable. Its frame is opened.
    pub(crate) fn put_local(
        &mut self,
        alloc: Global,
        depth: u32,
        var: u32,
        cells: &[Cell],
    ) -> Result<(), AllocError>
        requires { length cells.now ≡ length (blocks_of self.old (Local depth var)).cells }
        ensures ok { OnOk result (blocks_of self.new ≡ put (blocks_of self.old) (Local depth var) (record { types = (blocks_of self.old (Local depth var)).types; cells = cells.now })) }
        ensures err { OnErr result (blocks_of self.new ≡ blocks_of self.old) }
        ensures open { (d : ℕ) → IsOpen self.old d → IsOpen self.new d }
        ensures layouts { layouts_of self.new ≡ layouts_of self.old }
    {
        let own = Cells::new(Vec::from_slice(alloc, cells)?);
        self.open(alloc, depth)?;
        self.put_opened(depth, var, own);
        Ok(())
    }

    // Replaces all cells of a variable of an open frame.
    fn put_opened(&mut self, depth: u32, var: u32, cells: Cells)
        requires open { depth < live_count self.old → IsOpen self.old depth }
        requires long { length cells ≡ length (blocks_of self.old (Local depth var)).cells }
        ensures written { blocks_of self.new ≡ put (blocks_of self.old) (Local depth var) (record { types = (blocks_of self.old (Local depth var)).types; cells = cells }) }
        ensures open { (d : ℕ) → IsOpen self.old d → IsOpen self.new d }
        ensures layouts { layouts_of self.new ≡ layouts_of self.old }
    {
        let at = depth as usize;
        if at < self.live {
            self.frames[at].put(var as usize, cells);
        }
    }

    /// Opens the frame at this depth, if one is live.
    pub fn open(&mut self, alloc: Global, depth: u32) -> Result<(), AllocError>
        ensures blocks { blocks_of self.new ≡ blocks_of self.old }
        ensures open { OnOk result (depth < live_count self.new → IsOpen self.new depth) }
        ensures kept { (d : ℕ) → IsOpen self.old d → IsOpen self.new d }
        ensures live { live_count self.new ≡ live_count self.old }
        ensures layouts { layouts_of self.new ≡ layouts_of self.old }
    {
        let at = depth as usize;
        if at >= self.live || self.frames[at].is_open() {
            return Ok(());
        }
        let cells = opened(alloc, &self.layouts, &self.frames[at])?;
        self.frames[at].open_with(cells);
        Ok(())
    }
}

// The cells of a closed frame's variables.
fn opened(alloc: Global, layouts: &[Layout], frame: &Frame) -> Result<Vec<Cells>, AllocError>
    requires sized { IsSized (layout_in layouts.now frame.now.layout) frame.now }
    ensures blocks { IfOk result (λ cells. cells.items ≡ map (λ (b : Block). b.cells) (local_blocks (layout_in layouts.now frame.now.layout).shapes 0 0 frame.now.words frame.now.entries)) }
{
    let number = frame.layout();
    if number < layouts.len() {
        cells_of(
            alloc,
            layouts[number].shapes(),
            frame.words(),
            frame.entries(),
        )
    } else {
        Ok(Vec::new(alloc))
    }
}

// The cells of variables that are these words and pointers.
fn cells_of(
    alloc: Global,
    shapes: &[BlockShape],
    words: &[i64],
    entries: &[Flat],
) -> Result<Vec<Cells>, AllocError>
    requires words { integers shapes.now ≤ length words.now }
    requires entries { pointers shapes.now ≤ length entries.now }
    ensures { IfOk result (λ cells. cells.items ≡ map (λ (b : Block). b.cells) (local_blocks shapes.now 0 0 words.now entries.now)) }
{
    let mut cells = Vec::new(alloc);
    let mut integer = 0usize;
    let mut pointer = 0usize;
    for shape in shapes {
        match shape {
            BlockShape::OnePointer => {
                cells.push(pointer_cells(alloc, entries, pointer)?)?;
                pointer += 1;
            }
            BlockShape::Ints(types) => {
                let types = types.as_slice();
                cells.push(Cells::new(unpacked(alloc, types, words, integer)?))?;
                integer += types.len();
            }
        }
    }
    Ok(cells)
}

// The cell of a pointer.
fn pointer_cells(alloc: Global, entries: &[Flat], at: usize) -> Result<Cells, AllocError>
    requires { at < length entries.now }
    ensures { IfOk result (λ cells. cells ≡ Ptr (slice_index_or entries.now at Null) ∷ []) }
{
    let mut cells = Vec::new(alloc);
    cells.push(Cell::Ptr(entries[at].pointer()))?;
    Ok(Cells::new(cells))
}
