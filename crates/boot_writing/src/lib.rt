//! The parts of a boot, written as bytes in their one spelling.
//!
//! `put_list` appends a list of any of them; each part is `Spelled`.
#![tactic(auto)]

mod code;
mod expressions;
mod hosts;
mod lists;
mod objects;

pub use lists::{Spelled, put_list};
