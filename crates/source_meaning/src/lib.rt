//! The meaning of the original program. It holds definitions, and the laws that are proved of them.
#![tactic(auto)]

pub mod laws;
