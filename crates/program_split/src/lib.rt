//! The texts of the two halves of a program that breaks no rule. The text goes through lexer, parser, types and flows
//! first, and the first of them that has a fault refuses it.
#![tactic(auto)]

mod half_texts;
mod laws;
mod splitting;

pub use half_texts::HalfTexts;
pub use laws::{first_bytes_are_enough, texts_have_one_outcome};
pub use splitting::split;
