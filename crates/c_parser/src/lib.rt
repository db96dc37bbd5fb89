//! The parser: from tokens to the tree of a program.
#![tactic(auto)]

mod built;
mod declarations;
mod declarators;
mod error;
mod expressions;
mod heads;
mod labels;
mod laws;
mod levels;
mod operand_rule;
mod operators;
mod parsed;
mod plain_statements;
mod postfixes;
mod primaries;
mod program;
mod rest;
mod specifiers;
mod statement_rule;
mod statements;
mod text;

pub use error::ParseError;
pub use laws::{
    the_derivation_comes_to_an_outcome, the_derivation_has_one_outcome, the_limit_is_nesting,
};
pub use program::parse;
pub use text::DEEPEST;
