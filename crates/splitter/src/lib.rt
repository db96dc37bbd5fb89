//! The two halves of a program, each a program of its own, and what a slave starts from.
#![tactic(auto)]

mod boot;
mod calls;
mod functions;
mod globals;
mod halves;
mod hosts;
mod number_set;
mod signatures;
mod structs;

pub use boot::make_boot;
pub use halves::split;
