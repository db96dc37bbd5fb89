// The lines that report the faults of a program's text, of lexer, parser and types; and how lines spell
// a fault's number and name, and a stretch of the text.

mod lines;
mod spelling;

pub use lines::front_lines;
pub use spelling::{push_numbered, push_span};
