//! The memory of a run: blocks of cells by name.
#![tactic(auto)]

mod block_memory;
mod cell;
mod frames;
mod held;
mod shape;
mod stack;
mod start;
mod table;

pub use block_memory::BlockMemory;
pub use cell::{BlockName, Cell, CellAt, Pointer};
pub use shape::BlockShape;
