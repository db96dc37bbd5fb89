//! The memory of the step machine: blocks of cells by name, their integers kept as words.
#![tactic(auto)]

mod cells;
mod clear;
mod fast;
mod flat;
mod frame;
mod held;
mod laws;
mod layout;
mod locals;
mod memory;
mod packing;
mod place;
mod pointer_kind;
mod table;
mod variables;
mod write;

pub use flat::Flat;
pub use laws::{
    blocks_have_shapes, constants_stand, frames_fit, pointers_stand_for_cells,
    words_stand_for_cells,
};
pub use layout::{Layout, SPARE};
pub use memory::MachineMemory;
pub use place::Place;
pub use pointer_kind::PointerKind;
