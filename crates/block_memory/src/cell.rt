// What stands in a cell, and how blocks and cells are named.
use handle_store::Handle;

/// What stands in a cell.
#[derive(Clone, Copy)]
pub enum Cell {
    /// A number.
    Int(i128),
    /// A pointer.
    Ptr(Pointer),
    /// A handle, in place of a number that the monitor keeps.
    Sealed(Handle),
}

/// A pointer.
#[derive(Clone, Copy)]
pub enum Pointer {
    /// The null pointer.
    Null,
    /// A pointer to an element of `count` elements that lie in a block one after another, or to
    /// the place after the last of them.
    At {
        block: BlockName,
        /// The first cell of the first element.
        base: u32,
        count: u32,
        /// The element's number, from 0 to `count`.
        index: u32,
    },
}

/// The name of a block.
#[derive(Clone, Copy)]
pub enum BlockName {
    /// A variable of the function that was entered at this depth of calls.
    Local { depth: u32, var: u32 },
    /// A global.
    Global(u32),
    /// A block that a caller sent along with its call, by its place among those blocks.
    Received(u8),
}

/// A cell of a block, numbered from 0.
#[derive(Clone, Copy)]
pub struct CellAt {
    pub block: BlockName,
    pub cell: u32,
}
