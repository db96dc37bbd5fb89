//! Typed trees in which operators on secrets have become calls: which operators those are, in which order they
//! stand, and the tree with a function for each.
#![tactic(auto)]

mod laws;
mod placed;

pub use laws::lifted_trees_are_well_formed;
pub use placed::Placed;
