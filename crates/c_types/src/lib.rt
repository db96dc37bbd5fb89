//! The types of programs: a typed tree is well formed, and a program has one where it has no fault.
#![tactic(auto)]

mod check;

pub use check::check_types;
pub use check_programs::TypeError;
