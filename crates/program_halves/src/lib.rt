//! The two programs of a program that breaks no rule: what its slave runs and what its monitor runs.
#![tactic(auto)]

mod making;

pub use making::halves;
