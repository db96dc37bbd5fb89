//! The tokens of a program's text.
#![tactic(auto)]

mod character;
mod comment;
mod error;
mod laws;
mod next;
mod number;
mod spelling;
mod text;
mod token;

pub use error::{LexError, LexFault, LexFaultKind};
pub use laws::{tokens_are_one, tokens_or_fault};
pub use text::lex;
pub use token::{Token, TokenKind, TokenValue};

/// A text may have this many bytes.
pub const TEXT_LIMIT: usize = 1_048_576;
