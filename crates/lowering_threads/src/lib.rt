//! The lowering of all functions of a program, in threads: the answer is the one that a single thread would give.
#![tactic(auto)]

mod code;

pub use code::lower_all;
