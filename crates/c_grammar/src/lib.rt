//! The grammar: its symbols, its rules and the table that tells which rule a token leads to. The
//! rules, what they build and the derivation by them stand in specs/.
#![tactic(auto)]

mod symbol;
mod table;

pub use symbol::Symbol;
pub use table::{alternatives, kind_number, row, table_is_the_grammars};
