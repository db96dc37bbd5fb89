//! The functions of a program that have bodies, cut into runs of neighbours that threads can work on, and what
//! these made joined again: the answer is the one that a single thread would give.
#![tactic(auto)]

mod defined;
mod joining;
mod neighbours;

pub use defined::defined_functions;
pub use joining::{append, joined};
pub use neighbours::{Run, runs_of};
