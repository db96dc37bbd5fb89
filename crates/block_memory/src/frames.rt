// The blocks of the local variables, by depth.
ghost use Rattle.std.specs.Prelude.{◌≡◌, ◌<◌, ◌^◌, List, length, MatchOption, slice_index_or};
ghost use Rattle.block_memory.specs.Block.{Block, no_block};
ghost use Rattle.block_memory.specs.Frames.{local_at};
ghost use Rattle.block_memory.specs.Pieces.{AreStarts, pieces};

use crate::cell::Cell;
use crate::shape::BlockShape;
use crate::stack::Stack;
use pt_base::IntType;
use std::alloc::{AllocError, Global};
use std::marker::Model;

/// The variables of the active functions. Contracts see it as the list of frames by depth, each the
/// list of its variables' blocks.
#[derive(Drop)]
pub(crate) struct Frames {
    // By depth, where the variables start in `blocks`.
    starts: Vec<usize>,
    blocks: Stack,
}

impl Model for Frames {
    ghost use Rattle.std.specs.Prelude.{List, length};
    ghost use Rattle.block_memory.specs.Block.{Block};

    ghost Value = { List (List Block) };

    ghost use Rattle.block_memory.specs.Pieces.{AreStarts, pieces};

    ghost view = { λ f. pieces f.starts.items f.blocks };

    ghost invariant = { λ f. AreStarts 0 f.starts.items (length f.blocks) };
}

impl Frames {
    ghost use Rattle.std.specs.Prelude.{◌≡◌, ◌<◌, ◌≤◌, [], length, take, map, OnOk, OnErr, slice_get, Some};
    ghost use Rattle.block_memory.specs.Block.{fresh, with_cell};
    ghost use Rattle.block_memory.specs.Frames.{IsFreeFrom, local_at, SameBelow, SameLocals, SetsFrame, SetsLocal};

    /// No frames.
    pub(crate) fn new(alloc: Global) -> Frames
        ensures { result ≡ [] }
    {
        Frames {
            starts: Vec::new(alloc),
            blocks: Stack::new(alloc),
        }
    }

    /// Adds the frame of a depth. Where memory is wanting all locals stay as they are.
    #[inline]
    pub(crate) fn enter(&mut self, depth: u32, shapes: &[BlockShape]) -> Result<(), AllocError>
        requires { IsFreeFrom depth self.old }
        ensures ok { OnOk result (SetsFrame self.old self.new depth (map fresh shapes.now)) }
        ensures err { OnErr result (SameLocals self.old self.new) }
    {
        self.leave(depth);
        match self.add(depth, shapes) {
            Ok(()) => Ok(()),
            Err(e) => {
                self.leave(depth);
                Err(e)
            }
        }
    }

    // Adds the frame of a depth above all others. Where memory is wanting, it may have a part of its
    // variables.
    #[inline]
    fn add(&mut self, depth: u32, shapes: &[BlockShape]) -> Result<(), AllocError>
        requires { length self.old ≤ depth }
        ensures ok { OnOk result (SetsFrame self.old self.new depth (map fresh shapes.now)) }
        ensures err { OnErr result (SameBelow self.old self.new depth) }
    {
        let end = self.blocks.len();
        self.starts.resize(depth as usize + 1, end)?;
        self.blocks.extend(shapes)
    }

    /// Keeps the frames of the depths below this one.
    #[inline]
    pub(crate) fn leave(&mut self, depth: u32)
        ensures { self.new ≡ take depth self.old }
    {
        let depth = depth as usize;
        if depth < self.starts.len() {
            self.blocks.truncate(self.starts[depth]);
            self.starts.truncate(depth);
        }
    }

    /// The cells of a local, none where it isn't live.
    pub(crate) fn cells(&self, depth: u32, var: u32) -> &[Cell]
        ensures { result.now ≡ (local_at self.now depth var).cells }
    {
        match place(&self.starts, self.blocks.len(), depth, var) {
            Some(at) => self.blocks.cells(at),
            None => &[],
        }
    }

    /// The types of a local, none where it isn't live.
    pub(crate) fn types(&self, depth: u32, var: u32) -> &[IntType]
        ensures { result.now ≡ (local_at self.now depth var).types }
    {
        match place(&self.starts, self.blocks.len(), depth, var) {
            Some(at) => self.blocks.types(at),
            None => &[],
        }
    }

    /// One cell of a local.
    #[inline]
    pub(crate) fn read(&self, depth: u32, var: u32, cell: usize) -> Cell
        requires { cell < length (local_at self.now depth var).cells }
        ensures { slice_get (local_at self.now depth var).cells cell ≡ Some result }
    {
        let first = self.starts[depth as usize];
        self.blocks.read(first, var as usize, cell)
    }

    /// Replaces one cell of a local.
    #[inline]
    pub(crate) fn write(&mut self, depth: u32, var: u32, cell: usize, value: Cell)
        requires { cell < length (local_at self.old depth var).cells }
        ensures { SetsLocal self.old self.new depth var (with_cell (local_at self.old depth var) cell value) }
    {
        let first = self.starts[depth as usize];
        self.blocks.write(first, var as usize, cell, value);
    }

    /// Replaces all cells of a local.
    pub(crate) fn put(&mut self, depth: u32, var: u32, cells: &[Cell])
        requires { length cells.now ≡ length (local_at self.old depth var).cells }
        ensures { SetsLocal self.old self.new depth var (record { types = (local_at self.old depth var).types; cells = cells.now }) }
    {
        for (i, cell) in cells.iter().enumerate() {
            self.write(depth, var, i, *cell);
        }
    }
}

// Where a local's block stands among the `count` blocks.
fn place(starts: &[usize], count: usize, depth: u32, var: u32) -> Option<usize>
    requires starts { AreStarts 0 starts.now count }
    requires small { count < 2 ^ 63 }
    ensures { (blocks : List Block) → length blocks ≡ count → MatchOption result (local_at (pieces starts.now blocks) depth var ≡ no_block) (λ at. (at < count) × (local_at (pieces starts.now blocks) depth var ≡ slice_index_or blocks at no_block)) }
{
    let depth = depth as usize;
    if depth >= starts.len() {
        return None;
    }
    let end = starts.get(depth + 1).copied().unwrap_or(count);
    let at = starts[depth] + var as usize;
    if at < end { Some(at) } else { None }
}
