//! Each list of tokens comes to a program, or to a place where its derivation stops; and each text to its typed tree,
//! or to the faults of the first stage that finds one.
#![tactic(auto)]

mod parses;
mod readings;

pub use parses::tokens_come_to_an_outcome;
pub use readings::{
    programs_are_typed_or_faulty, texts_come_to_a_reading, trees_of_texts_are_well_formed,
};
