//! Programs made from a number, each with its host table and its policy: as many functions as are asked for, which
//! draws of a random generator choose among four forms.
#![tactic(auto)]

mod draws;
mod functions;
mod policies;
mod programs;
mod texts;

pub use texts::{Generated, generate};
