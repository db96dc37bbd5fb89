//! The label edges of all functions of a monitor's program, in threads: the answer is the one that a single thread would
//! give.
#![tactic(auto)]

mod edges;

pub use edges::labels_all;
