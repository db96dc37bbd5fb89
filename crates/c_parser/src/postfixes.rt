// What stands behind an operand with no expression in it.
ghost use Rattle.std.specs.Prelude.{◌≡◌, ◌<◌, ◌≤◌, ◌^◌, length, IfOk, IfSome, map};
ghost use Rattle.c_grammar.specs.Machine.{wanted};
ghost use Rattle.pt_tree.specs.ExpressionTree.{view_expr, view_postfix};
ghost use Rattle.c_grammar.specs.Builds.{postfixed};
ghost use Rattle.c_parser.specs.OperandNames.{postfix_number};
ghost use Rattle.c_parser.specs.Parts.{Adds};

use crate::error::ParseError;
use crate::operand_rule::PostfixRule;
use crate::parsed::Parsed;
use crate::text::{expect, identifier, span_of};
use c_lexer::{Token, TokenKind};
use pt_base::Span;
use pt_tree::{Expr, Postfix};
use std::alloc::{AllocError, Global};

/// An operand with what stands behind it, if anything does.
pub(crate) fn put_behind(
    alloc: Global,
    span: Span,
    operand: Expr,
    postfixes: Vec<Postfix>,
) -> Result<Expr, AllocError>
    ensures { IfOk result (λ e. view_expr e ≡ postfixed span (view_expr operand) (map view_postfix postfixes.items)) }
{
    if postfixes.is_empty() {
        return Ok(operand);
    }
    Expr::with_postfixes(alloc, span, operand, postfixes)
}

/// `.name` behind an operand.
pub(crate) fn dot(
    alloc: Global,
    tokens: &[Token],
    at: usize,
    depth: u32,
) -> Result<Option<Parsed<Postfix>>, ParseError>
    requires within { at ≤ length tokens.now }
    requires few { length tokens.now < 2 ^ 32 }
    requires shallow { depth ≤ 200 }
    ensures parses { Adds tokens.now (wanted at (postfix_number PostfixRule.Dot)) at depth result }
    ensures goes_on { IfOk result (λ o. IfSome o (λ p. (at < p.next) × (p.next ≤ length tokens.now))) }
{
    let after = expect(tokens, at, TokenKind::Dot)?;
    let name = identifier(alloc, tokens, after)?;
    let span = span_of(tokens, at, after + 1);
    Ok(Some(Parsed {
        tree: Postfix::Field(span, name),
        next: after + 1,
    }))
}

/// `->name` behind an operand.
pub(crate) fn arrow(
    alloc: Global,
    tokens: &[Token],
    at: usize,
    depth: u32,
) -> Result<Option<Parsed<Postfix>>, ParseError>
    requires within { at ≤ length tokens.now }
    requires few { length tokens.now < 2 ^ 32 }
    requires shallow { depth ≤ 200 }
    ensures parses { Adds tokens.now (wanted at (postfix_number PostfixRule.Arrow)) at depth result }
    ensures goes_on { IfOk result (λ o. IfSome o (λ p. (at < p.next) × (p.next ≤ length tokens.now))) }
{
    let after = expect(tokens, at, TokenKind::Arrow)?;
    let name = identifier(alloc, tokens, after)?;
    let span = span_of(tokens, at, after + 1);
    Ok(Some(Parsed {
        tree: Postfix::Arrow(span, name),
        next: after + 1,
    }))
}

/// `++` behind an operand.
pub(crate) fn increment(
    tokens: &[Token],
    at: usize,
    depth: u32,
) -> Result<Option<Parsed<Postfix>>, ParseError>
    requires within { at ≤ length tokens.now }
    requires few { length tokens.now < 2 ^ 32 }
    requires shallow { depth ≤ 200 }
    ensures parses { Adds tokens.now (wanted at (postfix_number PostfixRule.Increment)) at depth result }
    ensures goes_on { IfOk result (λ o. IfSome o (λ p. (at < p.next) × (p.next ≤ length tokens.now))) }
{
    let next = expect(tokens, at, TokenKind::PlusPlus)?;
    let span = span_of(tokens, at, next);
    Ok(Some(Parsed {
        tree: Postfix::Increment(span),
        next,
    }))
}

/// `--` behind an operand.
pub(crate) fn decrement(
    tokens: &[Token],
    at: usize,
    depth: u32,
) -> Result<Option<Parsed<Postfix>>, ParseError>
    requires within { at ≤ length tokens.now }
    requires few { length tokens.now < 2 ^ 32 }
    requires shallow { depth ≤ 200 }
    ensures parses { Adds tokens.now (wanted at (postfix_number PostfixRule.Decrement)) at depth result }
    ensures goes_on { IfOk result (λ o. IfSome o (λ p. (at < p.next) × (p.next ≤ length tokens.now))) }
{
    let next = expect(tokens, at, TokenKind::MinusMinus)?;
    let span = span_of(tokens, at, next);
    Ok(Some(Parsed {
        tree: Postfix::Decrement(span),
        next,
    }))
}
