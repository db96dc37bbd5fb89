// What stands in parentheses behind `if`, `while`, `switch` and `for`.
ghost use Rattle.std.specs.Prelude.{◌≡◌, ◌<◌, ◌≤◌, ◌^◌, length, IfOk, IsTrue, ℕ, [], ◌∷◌};
ghost use Rattle.c_grammar.specs.Machine.{takes, gives, opens, wanted};
ghost use Rattle.c_parser.specs.Parses.{Parses, is_fixed};
ghost use Rattle.c_parser.specs.Parts.{of_expr, of_for_init, of_maybe_expr};
ghost use Rattle.c_parser.specs.Heads.{of_for_controls, of_for_head};

use crate::declarations::declaration;
use crate::error::ParseError;
use crate::expressions::expression;
use crate::parsed::Parsed;
use crate::plain_statements::optional_expression;
use crate::text::{choose, expect, takes_first};
use c_grammar::Symbol;
use c_lexer::{Token, TokenKind};
use pt_tree::{Expr, ForInit};
use std::alloc::Global;

/// What stands behind the first semicolon of a `for`.
#[derive(Drop)]
pub(crate) struct ForControls {
    pub(crate) test: Option<Expr>,
    pub(crate) step: Option<Expr>,
}

/// What stands in the parentheses of a `for`.
#[derive(Drop)]
pub(crate) struct ForHead {
    pub(crate) init: ForInit,
    pub(crate) controls: ForControls,
}

/// A word with an expression in parentheses behind it.
pub(crate) fn condition(
    alloc: Global,
    tokens: &[Token],
    at: usize,
    depth: u32,
    word: TokenKind,
) -> Result<Parsed<Expr>, ParseError>
    requires within { at ≤ length tokens.now }
    requires few { length tokens.now < 2 ^ 32 }
    requires shallow { depth ≤ 200 }
    requires fixed { IsTrue (is_fixed word) }
    ensures parses { Parses [] of_expr tokens.now (takes word ∷ takes TokenKind.OpenParen ∷ opens Symbol.Expr ∷ takes TokenKind.CloseParen ∷ []) at depth result }
    ensures goes_on { IfOk result (λ p. (at < p.next) × (p.next ≤ length tokens.now)) }
{
    let after = expect(tokens, at, word)?;
    let inside = expect(tokens, after, TokenKind::OpenParen)?;
    let value = expression(alloc, tokens, inside, depth)?;
    let next = expect(tokens, value.next, TokenKind::CloseParen)?;
    Ok(Parsed {
        tree: value.tree,
        next,
    })
}

/// What stands behind the body of a `do`.
pub(crate) fn do_end(
    alloc: Global,
    tokens: &[Token],
    at: usize,
    depth: u32,
) -> Result<Parsed<Expr>, ParseError>
    requires within { at ≤ length tokens.now }
    requires few { length tokens.now < 2 ^ 32 }
    requires shallow { depth ≤ 200 }
    ensures parses { Parses [] of_expr tokens.now (takes TokenKind.While ∷ takes TokenKind.OpenParen ∷ opens Symbol.Expr ∷ takes TokenKind.CloseParen ∷ takes TokenKind.Semicolon ∷ []) at depth result }
    ensures goes_on { IfOk result (λ p. (at < p.next) × (p.next ≤ length tokens.now)) }
{
    let test = condition(alloc, tokens, at, depth, TokenKind::While)?;
    let next = expect(tokens, test.next, TokenKind::Semicolon)?;
    Ok(Parsed {
        tree: test.tree,
        next,
    })
}

/// `switch` with what it goes by, up to past the brace.
pub(crate) fn switch_head(
    alloc: Global,
    tokens: &[Token],
    at: usize,
    depth: u32,
) -> Result<Parsed<Expr>, ParseError>
    requires within { at ≤ length tokens.now }
    requires few { length tokens.now < 2 ^ 32 }
    requires shallow { depth ≤ 200 }
    ensures parses { Parses [] of_expr tokens.now (takes TokenKind.Switch ∷ takes TokenKind.OpenParen ∷ opens Symbol.Expr ∷ takes TokenKind.CloseParen ∷ takes TokenKind.OpenBrace ∷ []) at depth result }
    ensures goes_on { IfOk result (λ p. (at < p.next) × (p.next ≤ length tokens.now)) }
{
    let on = condition(alloc, tokens, at, depth, TokenKind::Switch)?;
    let next = expect(tokens, on.next, TokenKind::OpenBrace)?;
    Ok(Parsed {
        tree: on.tree,
        next,
    })
}

/// `for` with what stands in its parentheses.
pub(crate) fn for_head(
    alloc: Global,
    tokens: &[Token],
    at: usize,
    depth: u32,
) -> Result<Parsed<ForHead>, ParseError>
    requires within { at ≤ length tokens.now }
    requires few { length tokens.now < 2 ^ 32 }
    requires shallow { depth ≤ 200 }
    ensures parses { Parses [] of_for_head tokens.now (takes TokenKind.For ∷ takes TokenKind.OpenParen ∷ gives Symbol.ForInit ∷ gives Symbol.Opt ∷ takes TokenKind.Semicolon ∷ gives Symbol.ForStep ∷ takes TokenKind.CloseParen ∷ []) at depth result }
    ensures goes_on { IfOk result (λ p. (at < p.next) × (p.next ≤ length tokens.now)) }
{
    let word = expect(tokens, at, TokenKind::For)?;
    let inside = expect(tokens, word, TokenKind::OpenParen)?;
    let init = for_init(alloc, tokens, inside, depth)?;
    let controls = for_controls(alloc, tokens, init.next, depth)?;
    Ok(Parsed {
        tree: ForHead {
            init: init.tree,
            controls: controls.tree,
        },
        next: controls.next,
    })
}

fn for_controls(
    alloc: Global,
    tokens: &[Token],
    at: usize,
    depth: u32,
) -> Result<Parsed<ForControls>, ParseError>
    requires within { at ≤ length tokens.now }
    requires few { length tokens.now < 2 ^ 32 }
    requires shallow { depth ≤ 200 }
    ensures parses { Parses [] of_for_controls tokens.now (gives Symbol.Opt ∷ takes TokenKind.Semicolon ∷ gives Symbol.ForStep ∷ takes TokenKind.CloseParen ∷ []) at depth result }
    ensures goes_on { IfOk result (λ p. (at < p.next) × (p.next ≤ length tokens.now)) }
{
    let test = optional_expression(alloc, tokens, at, depth)?;
    let after = expect(tokens, test.next, TokenKind::Semicolon)?;
    let step = for_step(alloc, tokens, after, depth)?;
    let next = expect(tokens, step.next, TokenKind::CloseParen)?;
    Ok(Parsed {
        tree: ForControls {
            test: test.tree,
            step: step.tree,
        },
        next,
    })
}

// What stands first in the parentheses of a `for`.
fn for_init(
    alloc: Global,
    tokens: &[Token],
    at: usize,
    depth: u32,
) -> Result<Parsed<ForInit>, ParseError>
    requires within { at ≤ length tokens.now }
    requires few { length tokens.now < 2 ^ 32 }
    requires shallow { depth ≤ 200 }
    ensures parses { Parses [] of_for_init tokens.now (gives Symbol.ForInit ∷ []) at depth result }
    ensures goes_on { IfOk result (λ p. (at < p.next) × (p.next ≤ length tokens.now)) }
{
    let rule = choose(tokens, at, Symbol::ForInit)?;
    match rule {
        80 => for_declaration(alloc, tokens, at, depth),
        81 => for_nothing(tokens, at),
        _ => for_expression(alloc, tokens, at, depth),
    }
}

fn for_declaration(
    alloc: Global,
    tokens: &[Token],
    at: usize,
    depth: u32,
) -> Result<Parsed<ForInit>, ParseError>
    requires within { at ≤ length tokens.now }
    requires few { length tokens.now < 2 ^ 32 }
    requires shallow { depth ≤ 200 }
    ensures parses { Parses [] of_for_init tokens.now (wanted at 80) at depth result }
    ensures goes_on { IfOk result (λ p. (at < p.next) × (p.next ≤ length tokens.now)) }
{
    let declared = declaration(alloc, tokens, at, depth)?;
    Ok(Parsed {
        tree: ForInit::Declare(declared.tree),
        next: declared.next,
    })
}

fn for_nothing(tokens: &[Token], at: usize) -> Result<Parsed<ForInit>, ParseError>
    requires within { at ≤ length tokens.now }
    requires few { length tokens.now < 2 ^ 32 }
    ensures parses { (depth : ℕ) → Parses [] of_for_init tokens.now (wanted at 81) at depth result }
    ensures goes_on { IfOk result (λ p. (at < p.next) × (p.next ≤ length tokens.now)) }
{
    let next = expect(tokens, at, TokenKind::Semicolon)?;
    Ok(Parsed {
        tree: ForInit::Nothing,
        next,
    })
}

fn for_expression(
    alloc: Global,
    tokens: &[Token],
    at: usize,
    depth: u32,
) -> Result<Parsed<ForInit>, ParseError>
    requires within { at ≤ length tokens.now }
    requires few { length tokens.now < 2 ^ 32 }
    requires shallow { depth ≤ 200 }
    ensures parses { Parses [] of_for_init tokens.now (wanted at 82) at depth result }
    ensures goes_on { IfOk result (λ p. (at < p.next) × (p.next ≤ length tokens.now)) }
{
    let value = expression(alloc, tokens, at, depth)?;
    let next = expect(tokens, value.next, TokenKind::Semicolon)?;
    Ok(Parsed {
        tree: ForInit::Expr(value.tree),
        next,
    })
}

// What is done after each turn of a `for`, if anything is.
fn for_step(
    alloc: Global,
    tokens: &[Token],
    at: usize,
    depth: u32,
) -> Result<Parsed<Option<Expr>>, ParseError>
    requires within { at ≤ length tokens.now }
    requires few { length tokens.now < 2 ^ 32 }
    requires shallow { depth ≤ 200 }
    ensures parses { Parses [] of_maybe_expr tokens.now (gives Symbol.ForStep ∷ []) at depth result }
    ensures goes_on { IfOk result (λ p. (at ≤ p.next) × (p.next ≤ length tokens.now)) }
{
    let stands = takes_first(tokens, at, Symbol::ForStep)?;
    if stands {
        let value = expression(alloc, tokens, at, depth)?;
        return Ok(Parsed {
            tree: Some(value.tree),
            next: value.next,
        });
    }
    Ok(Parsed {
        tree: None,
        next: at,
    })
}
