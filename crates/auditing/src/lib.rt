//! Which results that a program's monitor gives openly may depend on secrets: a line for each such function. The text
//! goes through lexer, parser, types and flows first, and the first of them that has a fault refuses it.
#![tactic(auto)]

mod audits;
mod laws;
mod lines;
mod verdicts;

pub use audits::audit;
pub use laws::{
    accepted_texts_have_audits, audits_are_one, audits_name_all, first_bytes_are_enough,
};
