//! What the step machine of the normal form evaluates.
//!
//! What types say of an expression or a place is settled once: its code has offsets, sizes and
//! counts in their place. To evaluate the code gives what the normal form's meaning gives. A
//! function's statements are laid out in one array, each with where control goes on.
#![tactic(auto)]

mod cells;
mod code;
mod evaluation;
mod fault;
mod flattening;
mod globals;
mod instruction;
mod pointers;
mod resolution;
mod struct_layout;
mod symbols;

pub use code::{PlaceCode, ValueCode};
pub use evaluation::{location, value};
pub use fault::Fault;
pub use flattening::{FlatCode, flatten};
pub use globals::Globals;
pub use instruction::Instruction;
pub use resolution::{resolve_place, resolve_value};
pub use struct_layout::StructLayout;
pub use symbols::Symbols;
