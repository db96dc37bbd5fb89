//! The two calls that work on all functions of a program in threads, under the one name that programs of rows
//! know: the edges along which values move, and the lowering.
#![tactic(auto)]

pub use flow_threads::edges_all;
pub use lowering_threads::lower_all;
