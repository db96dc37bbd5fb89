//! The halves of a program as C text, for people.
#![tactic(auto)]

mod print;
mod weight;

pub use print::{print_monitor, print_slave};
