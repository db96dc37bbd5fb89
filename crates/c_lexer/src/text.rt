// The tokens of a whole text.
ghost use Rattle.std.specs.Prelude.{◌≡◌, ℕ, ◌≤◌, length, IfOk, IsOk, MatchResult, vec_len};
ghost use Rattle.c_lexer.specs.Lexes.{Lexes, IsLexError};
ghost use Rattle.c_lexer.specs.Values.{ValuesFit};

use crate::TEXT_LIMIT;
use crate::error::{LexError, LexFault, LexFaultKind};
use crate::next::{Next, begins_with};
use crate::token::Token;
use pt_base::Span;
use std::alloc::Global;

/// The tokens of the text in order, each with its place.
///
/// # Errors
///
/// `Memory`, or the text's fault: [`LexFaultKind::TooLong`] at the limit where the text is longer,
/// and otherwise the first place where neither a token nor space nor a complete comment starts.
pub fn lex(alloc: Global, text: &[u8]) -> Result<Vec<Token>, LexError>
    ensures tokens { MatchResult result (λ tokens. Lexes text.now tokens.items) (IsLexError text.now) }
    ensures limit { IsOk result → length text.now ≤ TEXT_LIMIT }
    ensures values { IfOk result (λ tokens. ValuesFit tokens.items) }
    ensures count { IfOk result (λ tokens. vec_len tokens ≤ length text.now) }
{
    if text.len() > TEXT_LIMIT {
        return Err(LexError::Fault(LexFault {
            kind: LexFaultKind::TooLong,
            at: TEXT_LIMIT as u32,
        }));
    }
    let mut tokens = Vec::new(alloc);
    let mut at = 0;
    while at < text.len() {
        match begins_with(alloc, &text[at..])? {
            Next::Blank(length) => at += length,
            Next::Token {
                length,
                kind,
                value,
            } => {
                let span = Span {
                    from: at as u32,
                    to: (at + length) as u32,
                };
                tokens.push(Token { kind, span, value })?;
                at += length;
            }
            Next::Fault(kind) => {
                return Err(LexError::Fault(LexFault {
                    kind,
                    at: at as u32,
                }));
            }
        }
    }
    Ok(tokens)
}
