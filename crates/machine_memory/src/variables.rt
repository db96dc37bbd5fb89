// The variables of live frames, one by one.
ghost use Rattle.std.specs.Prelude.{◌≡◌, length, IfSome, pos, slice_get, slice_index_or, Some};
ghost use Rattle.block_memory.specs.declared.cell.Cell.TheVariants.{Int};
ghost use Rattle.block_memory.specs.Block.{fresh, no_block};
ghost use Rattle.machine_memory.specs.Frames.{blocks_in, IsSized, layout_in};
ghost use Rattle.machine_memory.specs.Places.{Finds};
ghost use Rattle.word_arithmetic.specs.Words.{number_of};

use crate::frame::Frame;
use crate::layout::Layout;
use crate::memory::MachineMemory;
use crate::packing::{cell_at, is_wide};
use crate::place::Found;
use block_memory::Cell;
use pt_base::IntType;
use word_arithmetic::word;

#[tactic(auto, unfolding(crate::specs::Memory::blocks_of, crate::specs::Memory::layouts_of, crate::specs::Memory::frame_at, crate::specs::Memory::live_count))]
impl MachineMemory {
    ghost use Rattle.std.specs.Prelude.{◌≡◌, length, IfSome, pos, slice_get, slice_index_or, Some};
    ghost use Rattle.block_memory.specs.declared.cell.BlockName.TheVariants.{Local};
    ghost use Rattle.block_memory.specs.declared.cell.Cell.TheVariants.{Int};
    ghost use Rattle.word_arithmetic.specs.Words.{number_of};
    ghost use Rattle.machine_memory.specs.Memory.{blocks_of};

    /// The types of a variable's integers.
    pub(crate) fn local_types(&self, depth: u32, var: u32) -> &[IntType]
        ensures { result.now ≡ (blocks_of self.now (Local depth var)).types }
    {
        let depth = depth as usize;
        if depth < self.live {
            types_in(&self.layouts, &self.frames[depth], var as usize)
        } else {
            &[]
        }
    }

    /// How many cells a variable has.
    pub(crate) fn local_count(&self, depth: u32, var: u32) -> usize
        ensures { result ≡ length (blocks_of self.now (Local depth var)).cells }
    {
        let depth = depth as usize;
        if depth < self.live {
            count_in(&self.layouts, &self.frames[depth], var as usize)
        } else {
            0
        }
    }

    /// The word of an integer, if it is there and read so.
    pub(crate) fn local_word(&self, depth: u32, var: u32, cell: u32, wide: bool) -> Option<i64>
        ensures { IfSome result (λ w. slice_get (blocks_of self.now (Local depth var)).cells cell ≡ Some (Int (number_of wide w))) }
    {
        let depth = depth as usize;
        if depth < self.live {
            word_in(&self.layouts, &self.frames[depth], var, cell, wide)
        } else {
            None
        }
    }

    /// A cell of a variable, 0 where it isn't there.
    pub(crate) fn local_cell(&self, depth: u32, var: u32, cell: u32) -> Cell
        ensures { result ≡ slice_index_or (blocks_of self.now (Local depth var)).cells cell (Int (pos 0)) }
    {
        let depth = depth as usize;
        if depth < self.live {
            cell_in(&self.layouts, &self.frames[depth], var, cell)
        } else {
            Cell::Int(0)
        }
    }
}

fn types_in<'a>(layouts: &'a [Layout], frame: &Frame, var: usize) -> &'a [IntType]
    requires { IsSized (layout_in layouts.now frame.now.layout) frame.now }
    ensures { result.now ≡ (slice_index_or (blocks_in (layout_in layouts.now frame.now.layout) frame.now) var no_block).types }
{
    let number = frame.layout();
    if number < layouts.len() {
        layouts[number].types(var)
    } else {
        &[]
    }
}

fn count_in(layouts: &[Layout], frame: &Frame, var: usize) -> usize
    requires { IsSized (layout_in layouts.now frame.now.layout) frame.now }
    ensures { result ≡ length (slice_index_or (blocks_in (layout_in layouts.now frame.now.layout) frame.now) var no_block).cells }
{
    if frame.is_open() {
        return frame.cells(var).len();
    }
    let number = frame.layout();
    if number < layouts.len() {
        layouts[number].count(var)
    } else {
        0
    }
}

fn cell_in(layouts: &[Layout], frame: &Frame, var: u32, cell: u32) -> Cell
    requires { IsSized (layout_in layouts.now frame.now.layout) frame.now }
    ensures { result ≡ slice_index_or (slice_index_or (blocks_in (layout_in layouts.now frame.now.layout) frame.now) var no_block).cells cell (Int (pos 0)) }
{
    if frame.is_open() {
        return cell_of_open(frame.cells(var as usize), cell as usize);
    }
    match find_in(layouts, frame.layout(), var, cell) {
        Found::Integer(place) => cell_at(place.ty, frame.words(), place.at as usize),
        Found::Pointer(at) => Cell::Ptr(frame.entry(at as usize)),
        Found::Missing => Cell::Int(0),
    }
}

fn word_in(layouts: &[Layout], frame: &Frame, var: u32, cell: u32, wide: bool) -> Option<i64>
    requires { IsSized (layout_in layouts.now frame.now.layout) frame.now }
    ensures { IfSome result (λ w. slice_get (slice_index_or (blocks_in (layout_in layouts.now frame.now.layout) frame.now) var no_block).cells cell ≡ Some (Int (number_of wide w))) }
{
    if frame.is_open() {
        return word_of_open(frame.cells(var as usize), cell as usize, wide);
    }
    match find_in(layouts, frame.layout(), var, cell) {
        Found::Integer(place) => {
            if is_wide(place.ty) == wide {
                Some(frame.word(place.at as usize))
            } else {
                None
            }
        }
        Found::Pointer(_) | Found::Missing => None,
    }
}

// The word of an integer among the cells of an open frame's variable, if it is there and has one.
fn word_of_open(cells: &[Cell], at: usize, wide: bool) -> Option<i64>
    ensures { IfSome result (λ w. slice_get cells.now at ≡ Some (Int (number_of wide w))) }
{
    if at >= cells.len() {
        return None;
    }
    match cells[at] {
        Cell::Int(v) => word(v, wide),
        Cell::Ptr(_) | Cell::Sealed(_) => None,
    }
}

fn cell_of_open(cells: &[Cell], at: usize) -> Cell
    ensures { result ≡ slice_index_or cells.now at (Int (pos 0)) }
{
    if at < cells.len() {
        cells[at]
    } else {
        Cell::Int(0)
    }
}

/// What a cell of a variable is, in the layout of this number.
#[inline(always)]
pub(crate) fn find_in(layouts: &[Layout], number: usize, var: u32, cell: u32) -> Found
    ensures { Finds (layout_in layouts.now number).shapes var cell result }
{
    if number < layouts.len() {
        layouts[number].find(var, cell)
    } else {
        Found::Missing
    }
}
