//! The parts of a boot, read from the bytes that spell them.
//!
//! `list` reads a list of any of them; each is a `Part`.
#![tactic(auto)]

mod code;
mod expressions;
mod hosts;
mod lists;
mod objects;
mod starts;

pub use lists::{Part, list};
