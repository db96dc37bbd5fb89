//! The types of programs: all type faults of a parsed program, or its typed tree.
#![tactic(auto)]

mod agreement;
mod answer;
mod definitions;
mod entries;
mod function_marks;
mod functions;
mod globals;
mod mark_table;
mod parameters;
mod programs;
mod progress;
mod structs;

pub use answer::{Elaborated, TypeError};
pub use programs::elaborate;
