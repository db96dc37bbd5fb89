//! What a program that breaks no rule is made of, in outline: which half has which functions and globals, what
//! the slave may ask the monitor for and what crosses there, and a host table and a policy to start from.
#![tactic(auto)]

mod entries;
mod halves;
mod laws;
mod lines;
mod outlines;
mod starting;
mod struct_cells;

pub use laws::{accepted_texts_have_outlines, first_bytes_are_enough, words_tell_cells};
pub use outlines::outline;
