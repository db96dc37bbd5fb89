//! Which half of a program runs each function, and which globals the slave owns.
#![tactic(auto)]

mod calls;
mod functions;
mod owned;
mod tables;

pub use calls::{Half, call_edges, reached};
pub use functions::function_at;
pub use owned::named_by;
pub use tables::{functions_in, globals_in, set_true, slots_in};
