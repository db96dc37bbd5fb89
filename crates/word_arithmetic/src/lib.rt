//! The integer operators on words of 64 bits, each in a few machine instructions: as the definitions
//! over numbers say, or nothing where an operator traps.
#![tactic(auto)]

mod laws;
mod operators;
mod prefixes;
mod signed;
mod unsigned;
mod words;

pub use laws::{converts_by_bits, zero_as_word};
pub use operators::{int_operator, long_operator, uint_operator, ulong_operator};
pub use prefixes::prefix;
pub use words::{converted, number, word};
