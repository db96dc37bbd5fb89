//! Any parsed tree as text, laid out for people: the inverse of the lexer and the parser.
#![tactic(auto)]

mod expressions;
mod gap;
mod items;
mod sheet;
mod specifiers;
mod spelling;
mod statements;
mod tightness;

pub use sheet::Sheet;
