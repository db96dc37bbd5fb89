//! Which slots are privileged: those that a path of edges reaches from a seed.
#![tactic(auto)]

mod adjacent;
mod laws;
mod marks;
mod reached;
mod walk;

pub use laws::{marks_are_least, more_marks_more, order_is_free, shortest_paths_are_simple};
pub use marks::{Marks, propagate};
