// Statements made of what is parsed.
ghost use Rattle.std.specs.Prelude.{◌≡◌, ◌<◌, ◌≤◌, ◌^◌, length, IfOk, IfErr, ℕ, [], ◌∷◌, option_map, ◌++◌};
ghost use Rattle.pt_tree.specs.ExpressionTree.{view_expr};
ghost use Rattle.pt_tree.specs.StatementTree.{choose, while_true, do_while, for_each, view_stmt, view_for_init};
ghost use Rattle.c_grammar.specs.Machine.{takes, gives, opens, builds, stretch};
ghost use Rattle.c_grammar.specs.Builds.{a_block, block_statement, declared, do_statement, switch_statement};
ghost use Rattle.c_parser.specs.Blocks.{StartsBlock};
ghost use Rattle.c_parser.specs.Parses.{Parses};
ghost use Rattle.c_parser.specs.Parts.{of_expr, of_stmt, of_stmts, of_block, of_sections, else_tree};

use crate::declarations::declaration;
use crate::error::ParseError;
use crate::heads::{ForHead, do_end};
use crate::parsed::Parsed;
use crate::text::{begin, expect, span_of};
use c_grammar::Symbol;
use c_lexer::{Token, TokenKind};
use pt_base::Span;
use pt_tree::{Block, Expr, Section, Stmt};
use std::alloc::{AllocError, Global};

/// The brace that opens a block.
pub(crate) fn block_start(tokens: &[Token], at: usize) -> Result<usize, ParseError>
    requires within { at ≤ length tokens.now }
    requires few { length tokens.now < 2 ^ 32 }
    ensures starts { StartsBlock tokens.now at result }
    ensures goes_on { IfOk result (λ next. (at < next) × (next ≤ length tokens.now)) }
{
    begin(tokens, at, Symbol::Block)?;
    expect(tokens, at, TokenKind::OpenBrace)
}

/// The brace that closes a block, and the block.
pub(crate) fn block_end(
    tokens: &[Token],
    from: usize,
    items: Parsed<Vec<Stmt>>,
) -> Result<Parsed<Block>, ParseError>
    requires within { items.next ≤ length tokens.now }
    requires few { length tokens.now < 2 ^ 32 }
    ensures parses { (depth : ℕ) → Parses (of_stmts items.tree) of_block tokens.now (takes TokenKind.CloseBrace ∷ builds from a_block ∷ []) items.next depth result }
    ensures goes_on { IfOk result (λ p. (items.next < p.next) × (p.next ≤ length tokens.now)) }
{
    let next = expect(tokens, items.next, TokenKind::CloseBrace)?;
    let span = span_of(tokens, from, next);
    Ok(Parsed {
        tree: Block {
            span,
            items: items.tree,
        },
        next,
    })
}

/// A declaration as an item of a block.
pub(crate) fn declared(
    alloc: Global,
    tokens: &[Token],
    at: usize,
    depth: u32,
) -> Result<Parsed<Stmt>, ParseError>
    requires within { at ≤ length tokens.now }
    requires few { length tokens.now < 2 ^ 32 }
    requires shallow { depth ≤ 200 }
    ensures parses { Parses [] of_stmt tokens.now (gives Symbol.Declaration ∷ builds at declared ∷ []) at depth result }
    ensures goes_on { IfOk result (λ p. (at < p.next) × (p.next ≤ length tokens.now)) }
{
    let inner = declaration(alloc, tokens, at, depth)?;
    Ok(Parsed {
        tree: Stmt::Declare(inner.tree),
        next: inner.next,
    })
}

/// The brace that closes a `switch`, and the `switch`.
pub(crate) fn switch_end(
    tokens: &[Token],
    from: usize,
    on: Expr,
    sections: Parsed<Vec<Section>>,
) -> Result<Parsed<Stmt>, ParseError>
    requires within { sections.next ≤ length tokens.now }
    requires few { length tokens.now < 2 ^ 32 }
    ensures parses { (depth : ℕ) → Parses (of_sections sections.tree ++ of_expr on) of_stmt tokens.now (takes TokenKind.CloseBrace ∷ builds from switch_statement ∷ []) sections.next depth result }
    ensures goes_on { IfOk result (λ p. (sections.next < p.next) × (p.next ≤ length tokens.now)) }
{
    let next = expect(tokens, sections.next, TokenKind::CloseBrace)?;
    let span = span_of(tokens, from, next);
    Ok(Parsed {
        tree: Stmt::switch(span, on, sections.tree),
        next,
    })
}

/// What stands behind the body of a `do`, and the `do`.
pub(crate) fn do_loop(
    alloc: Global,
    tokens: &[Token],
    from: usize,
    depth: u32,
    body: Parsed<Stmt>,
) -> Result<Parsed<Stmt>, ParseError>
    requires within { body.next ≤ length tokens.now }
    requires few { length tokens.now < 2 ^ 32 }
    requires shallow { depth ≤ 200 }
    ensures parses { Parses (of_stmt body.tree) of_stmt tokens.now (takes TokenKind.While ∷ takes TokenKind.OpenParen ∷ opens Symbol.Expr ∷ takes TokenKind.CloseParen ∷ takes TokenKind.Semicolon ∷ builds from do_statement ∷ []) body.next depth result }
    ensures goes_on { IfOk result (λ p. (body.next < p.next) × (p.next ≤ length tokens.now)) }
{
    let test = do_end(alloc, tokens, body.next, depth)?;
    let span = span_of(tokens, from, test.next);
    let tree = Stmt::do_while(alloc, span, body.tree, test.tree)?;
    Ok(Parsed {
        tree,
        next: test.next,
    })
}

/// A `while` with its body.
pub(crate) fn while_loop(
    alloc: Global,
    tokens: &[Token],
    from: usize,
    test: Expr,
    body: Parsed<Stmt>,
) -> Result<Parsed<Stmt>, ParseError>
    ensures built { IfOk result (λ p. (p.next ≡ body.next) × (view_stmt p.tree ≡ while_true (stretch tokens.now from body.next) (view_expr test) (view_stmt body.tree))) }
    ensures memory { IfErr result (λ e. e ≡ ParseError.Memory) }
{
    let next = body.next;
    let span = span_of(tokens, from, next);
    match Stmt::while_true(alloc, span, test, body.tree) {
        Ok(tree) => Ok(Parsed { tree, next }),
        Err(_) => Err(ParseError::Memory),
    }
}

/// A `for` with its body.
pub(crate) fn for_loop(
    alloc: Global,
    tokens: &[Token],
    from: usize,
    head: ForHead,
    body: Parsed<Stmt>,
) -> Result<Parsed<Stmt>, ParseError>
    ensures built { IfOk result (λ p. (p.next ≡ body.next) × (view_stmt p.tree ≡ for_each (stretch tokens.now from body.next) (view_for_init head.init) (option_map view_expr head.controls.test) (option_map view_expr head.controls.step) (view_stmt body.tree))) }
    ensures memory { IfErr result (λ e. e ≡ ParseError.Memory) }
{
    let next = body.next;
    let span = span_of(tokens, from, next);
    match Stmt::for_each(
        alloc,
        span,
        head.init,
        head.controls.test,
        head.controls.step,
        body.tree,
    ) {
        Ok(tree) => Ok(Parsed { tree, next }),
        Err(_) => Err(ParseError::Memory),
    }
}

/// An `if` with its branches.
pub(crate) fn choice(
    alloc: Global,
    tokens: &[Token],
    from: usize,
    test: Expr,
    yes: Stmt,
    no: Parsed<Option<Stmt>>,
) -> Result<Parsed<Stmt>, ParseError>
    ensures built { IfOk result (λ p. (p.next ≡ no.next) × (view_stmt p.tree ≡ choose (stretch tokens.now from no.next) (view_expr test) (view_stmt yes) (else_tree no.tree))) }
    ensures memory { IfErr result (λ e. e ≡ ParseError.Memory) }
{
    let next = no.next;
    let span = span_of(tokens, from, next);
    match chosen(alloc, span, test, yes, no.tree) {
        Ok(tree) => Ok(Parsed { tree, next }),
        Err(_) => Err(ParseError::Memory),
    }
}

fn chosen(
    alloc: Global,
    span: Span,
    test: Expr,
    yes: Stmt,
    no: Option<Stmt>,
) -> Result<Stmt, AllocError>
    ensures { IfOk result (λ s. view_stmt s ≡ choose span (view_expr test) (view_stmt yes) (else_tree no)) }
{
    match no {
        None => Stmt::when(alloc, span, test, yes),
        Some(no) => Stmt::choice(alloc, span, test, yes, no),
    }
}
