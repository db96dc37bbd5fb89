//! The edges of all functions of a program, in threads: the answer is the one that a single thread would give.
#![tactic(auto)]

mod edges;

pub use edges::edges_all;
