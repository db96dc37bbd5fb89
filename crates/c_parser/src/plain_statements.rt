// Statements with no statement in them.
ghost use Rattle.std.specs.Prelude.{◌≡◌, ◌<◌, ◌≤◌, ◌^◌, length, IfOk, ℕ, [], ◌∷◌};
ghost use Rattle.c_grammar.specs.Machine.{gives, wanted};
ghost use Rattle.c_parser.specs.Parses.{Parses};
ghost use Rattle.c_parser.specs.Parts.{of_stmt, of_maybe_expr};
ghost use Rattle.c_parser.specs.RuleNames.{statement_number};

use crate::error::ParseError;
use crate::expressions::expression;
use crate::parsed::Parsed;
use crate::statement_rule::StatementRule;
use crate::text::{expect, span_of, takes_first};
use c_grammar::Symbol;
use c_lexer::{Token, TokenKind};
use pt_tree::{Expr, Stmt};
use std::alloc::Global;

/// A statement that does nothing.
pub(crate) fn empty_statement(tokens: &[Token], at: usize) -> Result<Parsed<Stmt>, ParseError>
    requires within { at ≤ length tokens.now }
    requires few { length tokens.now < 2 ^ 32 }
    ensures parses { (depth : ℕ) → Parses [] of_stmt tokens.now (wanted at (statement_number StatementRule.Empty)) at depth result }
    ensures goes_on { IfOk result (λ p. (at < p.next) × (p.next ≤ length tokens.now)) }
{
    let next = expect(tokens, at, TokenKind::Semicolon)?;
    let span = span_of(tokens, at, next);
    Ok(Parsed {
        tree: Stmt::Empty(span),
        next,
    })
}

/// An expression as a statement.
pub(crate) fn expression_statement(
    alloc: Global,
    tokens: &[Token],
    at: usize,
    depth: u32,
) -> Result<Parsed<Stmt>, ParseError>
    requires within { at ≤ length tokens.now }
    requires few { length tokens.now < 2 ^ 32 }
    requires shallow { depth ≤ 200 }
    ensures parses { Parses [] of_stmt tokens.now (wanted at (statement_number StatementRule.Expression)) at depth result }
    ensures goes_on { IfOk result (λ p. (at < p.next) × (p.next ≤ length tokens.now)) }
{
    let value = expression(alloc, tokens, at, depth)?;
    let next = expect(tokens, value.next, TokenKind::Semicolon)?;
    let span = span_of(tokens, at, next);
    Ok(Parsed {
        tree: Stmt::Expr(span, value.tree),
        next,
    })
}

/// A `return`, with its value or without.
pub(crate) fn return_statement(
    alloc: Global,
    tokens: &[Token],
    at: usize,
    depth: u32,
) -> Result<Parsed<Stmt>, ParseError>
    requires within { at ≤ length tokens.now }
    requires few { length tokens.now < 2 ^ 32 }
    requires shallow { depth ≤ 200 }
    ensures parses { Parses [] of_stmt tokens.now (wanted at (statement_number StatementRule.Return)) at depth result }
    ensures goes_on { IfOk result (λ p. (at < p.next) × (p.next ≤ length tokens.now)) }
{
    let word = expect(tokens, at, TokenKind::Return)?;
    let value = optional_expression(alloc, tokens, word, depth)?;
    let next = expect(tokens, value.next, TokenKind::Semicolon)?;
    let span = span_of(tokens, at, next);
    Ok(Parsed {
        tree: Stmt::Return(span, value.tree),
        next,
    })
}

/// A `break`.
pub(crate) fn break_statement(tokens: &[Token], at: usize) -> Result<Parsed<Stmt>, ParseError>
    requires within { at ≤ length tokens.now }
    requires few { length tokens.now < 2 ^ 32 }
    ensures parses { (depth : ℕ) → Parses [] of_stmt tokens.now (wanted at (statement_number StatementRule.Break)) at depth result }
    ensures goes_on { IfOk result (λ p. (at < p.next) × (p.next ≤ length tokens.now)) }
{
    let word = expect(tokens, at, TokenKind::Break)?;
    let next = expect(tokens, word, TokenKind::Semicolon)?;
    let span = span_of(tokens, at, next);
    Ok(Parsed {
        tree: Stmt::Break(span),
        next,
    })
}

/// A `continue`.
pub(crate) fn continue_statement(tokens: &[Token], at: usize) -> Result<Parsed<Stmt>, ParseError>
    requires within { at ≤ length tokens.now }
    requires few { length tokens.now < 2 ^ 32 }
    ensures parses { (depth : ℕ) → Parses [] of_stmt tokens.now (wanted at (statement_number StatementRule.Continue)) at depth result }
    ensures goes_on { IfOk result (λ p. (at < p.next) × (p.next ≤ length tokens.now)) }
{
    let word = expect(tokens, at, TokenKind::Continue)?;
    let next = expect(tokens, word, TokenKind::Semicolon)?;
    let span = span_of(tokens, at, next);
    Ok(Parsed {
        tree: Stmt::Continue(span),
        next,
    })
}

/// An expression, or nothing.
pub(crate) fn optional_expression(
    alloc: Global,
    tokens: &[Token],
    at: usize,
    depth: u32,
) -> Result<Parsed<Option<Expr>>, ParseError>
    requires within { at ≤ length tokens.now }
    requires few { length tokens.now < 2 ^ 32 }
    requires shallow { depth ≤ 200 }
    ensures parses { Parses [] of_maybe_expr tokens.now (gives Symbol.Opt ∷ []) at depth result }
    ensures goes_on { IfOk result (λ p. (at ≤ p.next) × (p.next ≤ length tokens.now)) }
{
    let stands = takes_first(tokens, at, Symbol::Opt)?;
    if stands {
        let value = expression(alloc, tokens, at, depth)?;
        return Ok(Parsed {
            tree: Some(value.tree),
            next: value.next,
        });
    }
    Ok(Parsed {
        tree: None,
        next: at,
    })
}
