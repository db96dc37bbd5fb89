//! The halves of a program as C trees.
#![tactic(auto)]

mod built;
mod clearing;
mod constants;
mod declarations;
mod expressions;
mod functions;
mod half;
mod initials;
mod items;
mod lookups;
mod names;
mod operators;
mod parameters;
mod places;
mod postfixes;
mod specifiers;
mod statements;
mod step;
mod types;

pub use half::Half;
