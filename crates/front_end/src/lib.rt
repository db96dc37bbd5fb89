//! The front end: from the text of a program to its typed tree, or to the faults of the first stage that finds one. And
//! the lines that report these faults, and how lines spell a fault's number and name, and a stretch of the text.
#![tactic(auto)]

mod error;
mod fault_lines;
mod laws;
mod parse_fault;
mod reading;

pub use error::FrontError;
pub use fault_lines::{front_lines, push_numbered, push_span};
pub use laws::a_text_has_one_reading;
pub use parse_fault::{ParseFault, ParseFaultKind};
pub use reading::read_program;
