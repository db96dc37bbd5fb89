// Statements and blocks.
ghost use Rattle.std.specs.Prelude.{◌≡◌, ◌+◌, ◌<◌, ◌≤◌, ◌^◌, length, IfOk, ℕ, [], ◌∷◌};
ghost use Rattle.c_grammar.specs.Machine.{gives, opens, wanted};
ghost use Rattle.c_parser.specs.Parses.{Parses};
ghost use Rattle.c_parser.specs.Parts.{of_stmt, of_stmts, of_block, of_else, of_section, of_sections};
ghost use Rattle.c_parser.specs.RuleNames.{statement_number};

use crate::built::{
    block_end, block_start, choice, declared, do_loop, for_loop, switch_end, while_loop,
};
use crate::error::ParseError;
use crate::heads::{condition, for_head, switch_head};
use crate::labels::label;
use crate::parsed::Parsed;
use crate::plain_statements::{
    break_statement, continue_statement, empty_statement, expression_statement, return_statement,
};
use crate::statement_rule::{StatementRule, statement_rule};
use crate::text::{DEEPEST, begin, expect, push_few, span_of, takes_first};
use c_grammar::Symbol;
use c_lexer::{Token, TokenKind};
use pt_tree::{Block, Section, Stmt};
use std::alloc::Global;

#[cycle(statements)]
fn statement(
    alloc: Global,
    tokens: &[Token],
    at: usize,
    depth: u32,
) -> Result<Parsed<Stmt>, ParseError>
    requires within { at ≤ length tokens.now }
    requires few { length tokens.now < 2 ^ 32 }
    requires shallow { depth ≤ 200 }
    ensures parses { Parses [] of_stmt tokens.now (opens Symbol.Statement ∷ []) at depth result }
    ensures goes_on { IfOk result (λ p. (at < p.next) × (p.next ≤ length tokens.now)) }
{
    if depth == DEEPEST {
        return Err(ParseError::TooDeep(at as u32));
    }
    any_statement(alloc, tokens, at, depth + 1)
}

#[cycle(statements)]
fn any_statement(
    alloc: Global,
    tokens: &[Token],
    at: usize,
    depth: u32,
) -> Result<Parsed<Stmt>, ParseError>
    requires within { at ≤ length tokens.now }
    requires few { length tokens.now < 2 ^ 32 }
    requires shallow { depth ≤ 200 }
    ensures parses { Parses [] of_stmt tokens.now (gives Symbol.Statement ∷ []) at depth result }
    ensures goes_on { IfOk result (λ p. (at < p.next) × (p.next ≤ length tokens.now)) }
{
    let rule = statement_rule(tokens, at)?;
    match rule {
        StatementRule::Block => block_statement(alloc, tokens, at, depth),
        StatementRule::Empty => empty_statement(tokens, at),
        StatementRule::Expression => expression_statement(alloc, tokens, at, depth),
        StatementRule::If => if_statement(alloc, tokens, at, depth),
        StatementRule::While => while_statement(alloc, tokens, at, depth),
        StatementRule::Do => do_statement(alloc, tokens, at, depth),
        StatementRule::For => for_statement(alloc, tokens, at, depth),
        StatementRule::Return => return_statement(alloc, tokens, at, depth),
        StatementRule::Break => break_statement(tokens, at),
        StatementRule::Continue => continue_statement(tokens, at),
        StatementRule::Switch => switch_statement(alloc, tokens, at, depth),
    }
}

/// A block.
#[cycle(statements)]
pub(crate) fn block(
    alloc: Global,
    tokens: &[Token],
    at: usize,
    depth: u32,
) -> Result<Parsed<Block>, ParseError>
    requires within { at ≤ length tokens.now }
    requires few { length tokens.now < 2 ^ 32 }
    requires shallow { depth ≤ 200 }
    ensures parses { Parses [] of_block tokens.now (gives Symbol.Block ∷ []) at depth result }
    ensures goes_on { IfOk result (λ p. (at < p.next) × (p.next ≤ length tokens.now)) }
{
    let inside = block_start(tokens, at)?;
    let none = Vec::new(alloc);
    let items = more_items(alloc, tokens, inside, depth, none)?;
    block_end(tokens, at, items)
}

#[cycle(statements)]
fn more_items(
    alloc: Global,
    tokens: &[Token],
    at: usize,
    depth: u32,
    mut items: Vec<Stmt>,
) -> Result<Parsed<Vec<Stmt>>, ParseError>
    requires within { at ≤ length tokens.now }
    requires few { length tokens.now < 2 ^ 32 }
    requires shallow { depth ≤ 200 }
    ensures parses { Parses (of_stmts items) of_stmts tokens.now (gives Symbol.Items ∷ []) at depth result }
    ensures goes_on { IfOk result (λ p. (at ≤ p.next) × (p.next ≤ length tokens.now)) }
{
    let mut next = at;
    loop {
        let more = takes_first(tokens, next, Symbol::Items)?;
        if !more {
            return Ok(Parsed { tree: items, next });
        }
        let one = item(alloc, tokens, next, depth)?;
        push_few(&mut items, one.tree)?;
        next = one.next;
    }
}

#[cycle(statements)]
fn item(alloc: Global, tokens: &[Token], at: usize, depth: u32) -> Result<Parsed<Stmt>, ParseError>
    requires within { at ≤ length tokens.now }
    requires few { length tokens.now < 2 ^ 32 }
    requires shallow { depth ≤ 200 }
    ensures parses { Parses [] of_stmt tokens.now (gives Symbol.Item ∷ []) at depth result }
    ensures goes_on { IfOk result (λ p. (at < p.next) × (p.next ≤ length tokens.now)) }
{
    let declares = takes_first(tokens, at, Symbol::Item)?;
    if declares {
        declared(alloc, tokens, at, depth)
    } else {
        statement(alloc, tokens, at, depth)
    }
}

#[cycle(statements)]
fn block_statement(
    alloc: Global,
    tokens: &[Token],
    at: usize,
    depth: u32,
) -> Result<Parsed<Stmt>, ParseError>
    requires within { at ≤ length tokens.now }
    requires few { length tokens.now < 2 ^ 32 }
    requires shallow { depth ≤ 200 }
    ensures parses { Parses [] of_stmt tokens.now (wanted at (statement_number StatementRule.Block)) at depth result }
    ensures goes_on { IfOk result (λ p. (at < p.next) × (p.next ≤ length tokens.now)) }
{
    let inner = block(alloc, tokens, at, depth)?;
    Ok(Parsed {
        tree: Stmt::braces(inner.tree),
        next: inner.next,
    })
}

#[cycle(statements)]
fn if_statement(
    alloc: Global,
    tokens: &[Token],
    at: usize,
    depth: u32,
) -> Result<Parsed<Stmt>, ParseError>
    requires within { at ≤ length tokens.now }
    requires few { length tokens.now < 2 ^ 32 }
    requires shallow { depth ≤ 200 }
    ensures parses { Parses [] of_stmt tokens.now (wanted at (statement_number StatementRule.If)) at depth result }
    ensures goes_on { IfOk result (λ p. (at < p.next) × (p.next ≤ length tokens.now)) }
{
    let test = condition(alloc, tokens, at, depth, TokenKind::If)?;
    let yes = statement(alloc, tokens, test.next, depth)?;
    let no = else_part(alloc, tokens, yes.next, depth)?;
    choice(alloc, tokens, at, test.tree, yes.tree, no)
}

#[cycle(statements)]
fn else_part(
    alloc: Global,
    tokens: &[Token],
    at: usize,
    depth: u32,
) -> Result<Parsed<Option<Stmt>>, ParseError>
    requires within { at ≤ length tokens.now }
    requires few { length tokens.now < 2 ^ 32 }
    requires shallow { depth ≤ 200 }
    ensures parses { Parses [] of_else tokens.now (gives Symbol.ElsePart ∷ []) at depth result }
    ensures goes_on { IfOk result (λ p. (at ≤ p.next) × (p.next ≤ length tokens.now)) }
{
    let stands = takes_first(tokens, at, Symbol::ElsePart)?;
    if stands {
        let word = expect(tokens, at, TokenKind::Else)?;
        let no = statement(alloc, tokens, word, depth)?;
        return Ok(Parsed {
            tree: Some(no.tree),
            next: no.next,
        });
    }
    Ok(Parsed {
        tree: None,
        next: at,
    })
}

#[cycle(statements)]
fn while_statement(
    alloc: Global,
    tokens: &[Token],
    at: usize,
    depth: u32,
) -> Result<Parsed<Stmt>, ParseError>
    requires within { at ≤ length tokens.now }
    requires few { length tokens.now < 2 ^ 32 }
    requires shallow { depth ≤ 200 }
    ensures parses { Parses [] of_stmt tokens.now (wanted at (statement_number StatementRule.While)) at depth result }
    ensures goes_on { IfOk result (λ p. (at < p.next) × (p.next ≤ length tokens.now)) }
{
    let test = condition(alloc, tokens, at, depth, TokenKind::While)?;
    let body = statement(alloc, tokens, test.next, depth)?;
    while_loop(alloc, tokens, at, test.tree, body)
}

#[cycle(statements)]
fn do_statement(
    alloc: Global,
    tokens: &[Token],
    at: usize,
    depth: u32,
) -> Result<Parsed<Stmt>, ParseError>
    requires within { at ≤ length tokens.now }
    requires few { length tokens.now < 2 ^ 32 }
    requires shallow { depth ≤ 200 }
    ensures parses { Parses [] of_stmt tokens.now (wanted at (statement_number StatementRule.Do)) at depth result }
    ensures goes_on { IfOk result (λ p. (at < p.next) × (p.next ≤ length tokens.now)) }
{
    let word = expect(tokens, at, TokenKind::Do)?;
    let body = statement(alloc, tokens, word, depth)?;
    do_loop(alloc, tokens, at, depth, body)
}

#[cycle(statements)]
fn for_statement(
    alloc: Global,
    tokens: &[Token],
    at: usize,
    depth: u32,
) -> Result<Parsed<Stmt>, ParseError>
    requires within { at ≤ length tokens.now }
    requires few { length tokens.now < 2 ^ 32 }
    requires shallow { depth ≤ 200 }
    ensures parses { Parses [] of_stmt tokens.now (wanted at (statement_number StatementRule.For)) at depth result }
    ensures goes_on { IfOk result (λ p. (at < p.next) × (p.next ≤ length tokens.now)) }
{
    let head = for_head(alloc, tokens, at, depth)?;
    let body = statement(alloc, tokens, head.next, depth)?;
    for_loop(alloc, tokens, at, head.tree, body)
}

#[cycle(statements)]
fn switch_statement(
    alloc: Global,
    tokens: &[Token],
    at: usize,
    depth: u32,
) -> Result<Parsed<Stmt>, ParseError>
    requires within { at ≤ length tokens.now }
    requires few { length tokens.now < 2 ^ 32 }
    requires shallow { depth ≤ 200 }
    ensures parses { Parses [] of_stmt tokens.now (wanted at (statement_number StatementRule.Switch)) at depth result }
    ensures goes_on { IfOk result (λ p. (at < p.next) × (p.next ≤ length tokens.now)) }
{
    let on = switch_head(alloc, tokens, at, depth)?;
    let none = Vec::new(alloc);
    let sections = more_sections(alloc, tokens, on.next, depth, none)?;
    switch_end(tokens, at, on.tree, sections)
}

#[cycle(statements)]
fn more_sections(
    alloc: Global,
    tokens: &[Token],
    at: usize,
    depth: u32,
    mut sections: Vec<Section>,
) -> Result<Parsed<Vec<Section>>, ParseError>
    requires within { at ≤ length tokens.now }
    requires few { length tokens.now < 2 ^ 32 }
    requires shallow { depth ≤ 200 }
    ensures parses { Parses (of_sections sections) of_sections tokens.now (gives Symbol.Sections ∷ []) at depth result }
    ensures goes_on { IfOk result (λ p. (at ≤ p.next) × (p.next ≤ length tokens.now)) }
{
    let mut next = at;
    loop {
        let more = takes_first(tokens, next, Symbol::Sections)?;
        if !more {
            return Ok(Parsed {
                tree: sections,
                next,
            });
        }
        let one = section(alloc, tokens, next, depth)?;
        push_few(&mut sections, one.tree)?;
        next = one.next;
    }
}

#[cycle(statements)]
fn section(
    alloc: Global,
    tokens: &[Token],
    at: usize,
    depth: u32,
) -> Result<Parsed<Section>, ParseError>
    requires within { at ≤ length tokens.now }
    requires few { length tokens.now < 2 ^ 32 }
    requires shallow { depth ≤ 200 }
    ensures parses { Parses [] of_section tokens.now (gives Symbol.Section ∷ []) at depth result }
    ensures goes_on { IfOk result (λ p. (at < p.next) × (p.next ≤ length tokens.now)) }
{
    begin(tokens, at, Symbol::Section)?;
    let label = label(alloc, tokens, at, depth)?;
    let none = Vec::new(alloc);
    let body = section_items(alloc, tokens, label.next, depth, none)?;
    let span = span_of(tokens, at, body.next);
    Ok(Parsed {
        tree: Section {
            span,
            label: label.tree,
            statements: body.tree,
        },
        next: body.next,
    })
}

#[cycle(statements)]
fn section_items(
    alloc: Global,
    tokens: &[Token],
    at: usize,
    depth: u32,
    mut items: Vec<Stmt>,
) -> Result<Parsed<Vec<Stmt>>, ParseError>
    requires within { at ≤ length tokens.now }
    requires few { length tokens.now < 2 ^ 32 }
    requires shallow { depth ≤ 200 }
    ensures parses { Parses (of_stmts items) of_stmts tokens.now (gives Symbol.SectionItems ∷ []) at depth result }
    ensures goes_on { IfOk result (λ p. (at ≤ p.next) × (p.next ≤ length tokens.now)) }
{
    let mut next = at;
    loop {
        let more = takes_first(tokens, next, Symbol::SectionItems)?;
        if !more {
            return Ok(Parsed { tree: items, next });
        }
        let one = statement(alloc, tokens, next, depth)?;
        push_few(&mut items, one.tree)?;
        next = one.next;
    }
}
