// Labels of a switch.
ghost use Rattle.std.specs.Prelude.{◌≡◌, ◌<◌, ◌≤◌, ◌^◌, length, IfOk, [], ◌∷◌};
ghost use Rattle.c_grammar.specs.Machine.{gives};
ghost use Rattle.c_parser.specs.Parses.{Parses};
ghost use Rattle.c_parser.specs.Parts.{of_label};

use crate::error::ParseError;
use crate::expressions::conditional;
use crate::parsed::Parsed;
use crate::text::{expect, span_of, takes_first};
use c_grammar::Symbol;
use c_lexer::{Token, TokenKind};
use pt_tree::Label;
use std::alloc::Global;

/// A label of a switch.
pub(crate) fn label(
    alloc: Global,
    tokens: &[Token],
    at: usize,
    depth: u32,
) -> Result<Parsed<Label>, ParseError>
    requires within { at ≤ length tokens.now }
    requires few { length tokens.now < 2 ^ 32 }
    requires shallow { depth ≤ 200 }
    ensures parses { Parses [] of_label tokens.now (gives Symbol.Label ∷ []) at depth result }
    ensures goes_on { IfOk result (λ p. (at < p.next) × (p.next ≤ length tokens.now)) }
{
    let compares = takes_first(tokens, at, Symbol::Label)?;
    if compares {
        let word = expect(tokens, at, TokenKind::Case)?;
        let value = conditional(alloc, tokens, word, depth)?;
        let next = expect(tokens, value.next, TokenKind::Colon)?;
        let span = span_of(tokens, at, next);
        return Ok(Parsed {
            tree: Label::Case(span, value.tree),
            next,
        });
    }
    let other = expect(tokens, at, TokenKind::Default)?;
    let end = expect(tokens, other, TokenKind::Colon)?;
    let span = span_of(tokens, at, end);
    Ok(Parsed {
        tree: Label::Default(span),
        next: end,
    })
}
