// Expressions.
ghost use Rattle.std.specs.Prelude.{◌≡◌, ◌+◌, ◌<◌, ◌≤◌, ◌^◌, ◌++◌, length, IfOk, Some, None, List, ℕ, [], ◌∷◌, IsTrue, true, false};
ghost use Rattle.c_grammar.specs.Machine.{takes, gives, opens, builds, wanted};
ghost use Rattle.std.specs.Prelude.{map, IfSome};
ghost use Rattle.pt_tree.specs.ExpressionTree.{view_expr, view_link};
ghost use Rattle.c_grammar.specs.Builds.{chained, stepped, no_links, chain_of};
ghost use Rattle.c_parser.specs.Levels.{symbol_of, tail_of, tighter_of};
ghost use Rattle.c_parser.specs.OperandNames.{unary_number, postfix_number};
ghost use Rattle.c_parser.specs.Parses.{Parses, is_fixed};
ghost use Rattle.c_parser.specs.Parts.{of_expr, of_exprs, of_links, of_postfixes, Adds};

use crate::declarators::star;
use crate::error::ParseError;
use crate::levels::{begin_operand, level_at, levels_ended, levels_within};
use crate::operand_rule::{PostfixRule, UnaryRule, postfix_rule, unary_rule};
use crate::operators::{
    Level, assignment_operator, kind_by, link_operator, prefix_operator, tighter,
};
use crate::parsed::Parsed;
use crate::postfixes::{arrow, decrement, dot, increment, put_behind};
use crate::primaries::primary;
use crate::specifiers::specifiers;
use crate::text::{DEEPEST, begin, expect, one, push_few, span_of, takes_first};
use c_grammar::Symbol;
use c_lexer::{Token, TokenKind};
use pt_base::Span;
use pt_tree::{Expr, Link, Postfix, PrefixOp};
use std::alloc::{AllocError, Global};

/// An expression, which is counted.
#[cycle(expressions)]
pub(crate) fn expression(
    alloc: Global,
    tokens: &[Token],
    at: usize,
    depth: u32,
) -> Result<Parsed<Expr>, ParseError>
    requires within { at ≤ length tokens.now }
    requires few { length tokens.now < 2 ^ 32 }
    requires shallow { depth ≤ 200 }
    ensures parses { Parses [] of_expr tokens.now (opens Symbol.Expr ∷ []) at depth result }
    ensures goes_on { IfOk result (λ p. (at < p.next) × (p.next ≤ length tokens.now)) }
{
    if depth == DEEPEST {
        return Err(ParseError::TooDeep(at as u32));
    }
    assignment(alloc, tokens, at, depth + 1)
}

#[cycle(expressions)]
fn assignment(
    alloc: Global,
    tokens: &[Token],
    at: usize,
    depth: u32,
) -> Result<Parsed<Expr>, ParseError>
    requires within { at ≤ length tokens.now }
    requires few { length tokens.now < 2 ^ 32 }
    requires shallow { depth ≤ 200 }
    ensures parses { Parses [] of_expr tokens.now (gives Symbol.Expr ∷ []) at depth result }
    ensures goes_on { IfOk result (λ p. (at < p.next) × (p.next ≤ length tokens.now)) }
{
    begin(tokens, at, Symbol::Expr)?;
    let left = conditional(alloc, tokens, at, depth)?;
    let assigns = takes_first(tokens, left.next, Symbol::AssignTail)?;
    if assigns {
        let op = assignment_operator(tokens, left.next)?;
        let value = expression(alloc, tokens, op.next, depth)?;
        let span = span_of(tokens, at, value.next);
        let tree = Expr::assigned(alloc, span, op.tree, left.tree, value.tree)?;
        return Ok(Parsed {
            tree,
            next: value.next,
        });
    }
    Ok(left)
}

/// A conditional expression, which takes no assignment.
#[cycle(expressions)]
pub(crate) fn conditional(
    alloc: Global,
    tokens: &[Token],
    at: usize,
    depth: u32,
) -> Result<Parsed<Expr>, ParseError>
    requires within { at ≤ length tokens.now }
    requires few { length tokens.now < 2 ^ 32 }
    requires shallow { depth ≤ 200 }
    ensures parses { Parses [] of_expr tokens.now (gives Symbol.Cond ∷ []) at depth result }
    ensures goes_on { IfOk result (λ p. (at < p.next) × (p.next ≤ length tokens.now)) }
{
    begin(tokens, at, Symbol::Cond)?;
    let test = level_chain(alloc, tokens, at, depth, Level::LogicalOr)?;
    let chooses = takes_first(tokens, test.next, Symbol::CondTail)?;
    if chooses {
        let inside = expect(tokens, test.next, TokenKind::Question)?;
        let yes = expression(alloc, tokens, inside, depth)?;
        let after = expect(tokens, yes.next, TokenKind::Colon)?;
        let no = nested_conditional(alloc, tokens, after, depth)?;
        let span = span_of(tokens, at, no.next);
        let tree = Expr::chosen(alloc, span, test.tree, yes.tree, no.tree)?;
        return Ok(Parsed {
            tree,
            next: no.next,
        });
    }
    Ok(test)
}

#[cycle(expressions)]
fn nested_conditional(
    alloc: Global,
    tokens: &[Token],
    at: usize,
    depth: u32,
) -> Result<Parsed<Expr>, ParseError>
    requires within { at ≤ length tokens.now }
    requires few { length tokens.now < 2 ^ 32 }
    requires shallow { depth ≤ 200 }
    ensures parses { Parses [] of_expr tokens.now (opens Symbol.Cond ∷ []) at depth result }
    ensures goes_on { IfOk result (λ p. (at < p.next) × (p.next ≤ length tokens.now)) }
{
    if depth == DEEPEST {
        return Err(ParseError::TooDeep(at as u32));
    }
    conditional(alloc, tokens, at, depth + 1)
}

// The operands of one level: an operand of none, and what stands behind it at each level from the
// tightest to this one.
#[cycle(expressions)]
fn level_chain(
    alloc: Global,
    tokens: &[Token],
    at: usize,
    depth: u32,
    level: Level,
) -> Result<Parsed<Expr>, ParseError>
    requires within { at ≤ length tokens.now }
    requires few { length tokens.now < 2 ^ 32 }
    requires shallow { depth ≤ 200 }
    ensures parses { Parses [] of_expr tokens.now (gives (symbol_of level) ∷ []) at depth result }
    ensures goes_on { IfOk result (λ p. (at < p.next) × (p.next ≤ length tokens.now)) }
{
    begin_operand(tokens, at, level)?;
    let first = unary(alloc, tokens, at, depth)?;
    let count = levels_within(level);
    let mut ends = levels_ended(tokens, first.next);
    let mut left = first;
    for position in 0..count {
        if position < ends {
            continue;
        }
        let here = level_at(position);
        left = at_level(alloc, tokens, at, depth, here, left)?;
        let there = levels_ended(tokens, left.next);
        ends = there;
    }
    Ok(left)
}

// What stands behind an operand at one level, if anything does.
#[cycle(expressions)]
fn at_level(
    alloc: Global,
    tokens: &[Token],
    from: usize,
    depth: u32,
    level: Level,
    left: Parsed<Expr>,
) -> Result<Parsed<Expr>, ParseError>
    requires within { left.next ≤ length tokens.now }
    requires few { length tokens.now < 2 ^ 32 }
    requires shallow { depth ≤ 200 }
    ensures parses { Parses (of_expr left.tree) of_expr tokens.now (builds from no_links ∷ gives (tail_of level) ∷ builds from chain_of ∷ []) left.next depth result }
    ensures goes_on { IfOk result (λ p. (left.next ≤ p.next) × (p.next ≤ length tokens.now)) }
{
    let none = Vec::new(alloc);
    let links = more_operands(alloc, tokens, left.next, depth, level, none)?;
    let span = span_of(tokens, from, links.next);
    let tree = chain_up(alloc, span, left.tree, links.tree)?;
    Ok(Parsed {
        tree,
        next: links.next,
    })
}

fn chain_up(alloc: Global, span: Span, first: Expr, links: Vec<Link>) -> Result<Expr, AllocError>
    ensures { IfOk result (λ e. view_expr e ≡ chained span (view_expr first) (map view_link links.items)) }
{
    if links.is_empty() {
        return Ok(first);
    }
    Expr::chained(alloc, span, first, links)
}

#[cycle(expressions)]
fn operand(
    alloc: Global,
    tokens: &[Token],
    at: usize,
    depth: u32,
    level: Level,
) -> Result<Parsed<Expr>, ParseError>
    requires within { at ≤ length tokens.now }
    requires few { length tokens.now < 2 ^ 32 }
    requires shallow { depth ≤ 200 }
    ensures parses { Parses [] of_expr tokens.now (gives (tighter_of level) ∷ []) at depth result }
    ensures goes_on { IfOk result (λ p. (at < p.next) × (p.next ≤ length tokens.now)) }
{
    match tighter(level) {
        Some(next) => level_chain(alloc, tokens, at, depth, next),
        None => unary(alloc, tokens, at, depth),
    }
}

#[cycle(expressions)]
fn more_operands(
    alloc: Global,
    tokens: &[Token],
    at: usize,
    depth: u32,
    level: Level,
    mut links: Vec<Link>,
) -> Result<Parsed<Vec<Link>>, ParseError>
    requires within { at ≤ length tokens.now }
    requires few { length tokens.now < 2 ^ 32 }
    requires shallow { depth ≤ 200 }
    ensures parses { Parses (of_links links) of_links tokens.now (gives (tail_of level) ∷ []) at depth result }
    ensures goes_on { IfOk result (λ p. (at ≤ p.next) × (p.next ≤ length tokens.now)) }
{
    let mut next = at;
    loop {
        let operator = link_operator(tokens, next, level)?;
        match operator {
            None => return Ok(Parsed { tree: links, next }),
            Some(op) => {
                let kind = kind_by(op);
                let after = expect(tokens, next, kind)?;
                let one = operand(alloc, tokens, after, depth, level)?;
                let span = span_of(tokens, next, one.next);
                let link = Link {
                    span,
                    op,
                    operand: one.tree,
                };
                push_few(&mut links, link)?;
                next = one.next;
            }
        }
    }
}

// An operand with the operators before and behind it.
#[cycle(expressions)]
fn unary(alloc: Global, tokens: &[Token], at: usize, depth: u32) -> Result<Parsed<Expr>, ParseError>
    requires within { at ≤ length tokens.now }
    requires few { length tokens.now < 2 ^ 32 }
    requires shallow { depth ≤ 200 }
    ensures parses { Parses [] of_expr tokens.now (gives Symbol.Unary ∷ []) at depth result }
    ensures goes_on { IfOk result (λ p. (at < p.next) × (p.next ≤ length tokens.now)) }
{
    let rule = unary_rule(tokens, at)?;
    match rule {
        UnaryRule::Parenthesised => parenthesised(alloc, tokens, at, depth),
        UnaryRule::Prefixed => prefixed(alloc, tokens, at, depth),
        UnaryRule::Increment => step(
            alloc,
            tokens,
            at,
            depth,
            TokenKind::PlusPlus,
            PrefixOp::Increment,
        ),
        UnaryRule::Decrement => step(
            alloc,
            tokens,
            at,
            depth,
            TokenKind::MinusMinus,
            PrefixOp::Decrement,
        ),
        UnaryRule::Postfixed => with_postfixes(alloc, tokens, at, depth),
    }
}

#[cycle(expressions)]
fn nested_unary(
    alloc: Global,
    tokens: &[Token],
    at: usize,
    depth: u32,
) -> Result<Parsed<Expr>, ParseError>
    requires within { at ≤ length tokens.now }
    requires few { length tokens.now < 2 ^ 32 }
    requires shallow { depth ≤ 200 }
    ensures parses { Parses [] of_expr tokens.now (opens Symbol.Unary ∷ []) at depth result }
    ensures goes_on { IfOk result (λ p. (at < p.next) × (p.next ≤ length tokens.now)) }
{
    if depth == DEEPEST {
        return Err(ParseError::TooDeep(at as u32));
    }
    unary(alloc, tokens, at, depth + 1)
}

// A cast, or an expression in parentheses with what stands behind it.
#[cycle(expressions)]
fn parenthesised(
    alloc: Global,
    tokens: &[Token],
    at: usize,
    depth: u32,
) -> Result<Parsed<Expr>, ParseError>
    requires within { at ≤ length tokens.now }
    requires few { length tokens.now < 2 ^ 32 }
    requires shallow { depth ≤ 200 }
    ensures parses { Parses [] of_expr tokens.now (wanted at (unary_number UnaryRule.Parenthesised)) at depth result }
    ensures goes_on { IfOk result (λ p. (at < p.next) × (p.next ≤ length tokens.now)) }
{
    let inside = expect(tokens, at, TokenKind::OpenParen)?;
    let casts = takes_first(tokens, inside, Symbol::Paren)?;
    if casts {
        let specs = specifiers(alloc, tokens, inside, depth)?;
        let pointer = star(tokens, specs.next)?;
        let after = expect(tokens, pointer.next, TokenKind::CloseParen)?;
        let operand = nested_unary(alloc, tokens, after, depth)?;
        let span = span_of(tokens, at, operand.next);
        let tree = Expr::cast(alloc, span, specs.tree, pointer.tree, operand.tree)?;
        return Ok(Parsed {
            tree,
            next: operand.next,
        });
    }
    let inner = expression(alloc, tokens, inside, depth)?;
    let closed = expect(tokens, inner.next, TokenKind::CloseParen)?;
    let none = Vec::new(alloc);
    let behind = more_postfixes(alloc, tokens, closed, depth, none)?;
    let span = span_of(tokens, at, behind.next);
    let tree = put_behind(alloc, span, inner.tree, behind.tree)?;
    Ok(Parsed {
        tree,
        next: behind.next,
    })
}

#[cycle(expressions)]
fn prefixed(
    alloc: Global,
    tokens: &[Token],
    at: usize,
    depth: u32,
) -> Result<Parsed<Expr>, ParseError>
    requires within { at ≤ length tokens.now }
    requires few { length tokens.now < 2 ^ 32 }
    requires shallow { depth ≤ 200 }
    ensures parses { Parses [] of_expr tokens.now (wanted at (unary_number UnaryRule.Prefixed)) at depth result }
    ensures goes_on { IfOk result (λ p. (at < p.next) × (p.next ≤ length tokens.now)) }
{
    let op = prefix_operator(tokens, at)?;
    let operand = nested_unary(alloc, tokens, op.next, depth)?;
    let span = span_of(tokens, at, operand.next);
    let tree = Expr::prefixed(alloc, span, op.tree, operand.tree)?;
    Ok(Parsed {
        tree,
        next: operand.next,
    })
}

// `++` or `--` before its operand.
#[cycle(expressions)]
fn step(
    alloc: Global,
    tokens: &[Token],
    at: usize,
    depth: u32,
    kind: TokenKind,
    op: PrefixOp,
) -> Result<Parsed<Expr>, ParseError>
    requires within { at ≤ length tokens.now }
    requires few { length tokens.now < 2 ^ 32 }
    requires shallow { depth ≤ 200 }
    requires fixed { IsTrue (is_fixed kind) }
    ensures parses { Parses [] of_expr tokens.now (takes kind ∷ opens Symbol.Unary ∷ builds at (stepped op) ∷ []) at depth result }
    ensures goes_on { IfOk result (λ p. (at < p.next) × (p.next ≤ length tokens.now)) }
{
    let after = expect(tokens, at, kind)?;
    let operand = nested_unary(alloc, tokens, after, depth)?;
    let span = span_of(tokens, at, operand.next);
    let tree = Expr::prefixed(alloc, span, op, operand.tree)?;
    Ok(Parsed {
        tree,
        next: operand.next,
    })
}

#[cycle(expressions)]
fn with_postfixes(
    alloc: Global,
    tokens: &[Token],
    at: usize,
    depth: u32,
) -> Result<Parsed<Expr>, ParseError>
    requires within { at ≤ length tokens.now }
    requires few { length tokens.now < 2 ^ 32 }
    requires shallow { depth ≤ 200 }
    ensures parses { Parses [] of_expr tokens.now (wanted at (unary_number UnaryRule.Postfixed)) at depth result }
    ensures goes_on { IfOk result (λ p. (at < p.next) × (p.next ≤ length tokens.now)) }
{
    let first = primary(alloc, tokens, at)?;
    let none = Vec::new(alloc);
    let behind = more_postfixes(alloc, tokens, first.next, depth, none)?;
    let span = span_of(tokens, at, behind.next);
    let tree = put_behind(alloc, span, first.tree, behind.tree)?;
    Ok(Parsed {
        tree,
        next: behind.next,
    })
}

#[cycle(expressions)]
fn more_postfixes(
    alloc: Global,
    tokens: &[Token],
    at: usize,
    depth: u32,
    mut postfixes: Vec<Postfix>,
) -> Result<Parsed<Vec<Postfix>>, ParseError>
    requires within { at ≤ length tokens.now }
    requires few { length tokens.now < 2 ^ 32 }
    requires shallow { depth ≤ 200 }
    ensures parses { Parses (of_postfixes postfixes) of_postfixes tokens.now (gives Symbol.Postfixes ∷ []) at depth result }
    ensures goes_on { IfOk result (λ p. (at ≤ p.next) × (p.next ≤ length tokens.now)) }
{
    let mut next = at;
    loop {
        let found = postfix(alloc, tokens, next, depth)?;
        match found {
            None => {
                return Ok(Parsed {
                    tree: postfixes,
                    next,
                });
            }
            Some(one) => {
                push_few(&mut postfixes, one.tree)?;
                next = one.next;
            }
        }
    }
}

// What stands behind an operand next, if anything does.
#[cycle(expressions)]
fn postfix(
    alloc: Global,
    tokens: &[Token],
    at: usize,
    depth: u32,
) -> Result<Option<Parsed<Postfix>>, ParseError>
    requires within { at ≤ length tokens.now }
    requires few { length tokens.now < 2 ^ 32 }
    requires shallow { depth ≤ 200 }
    ensures parses { Adds tokens.now (gives Symbol.Postfixes ∷ []) at depth result }
    ensures goes_on { IfOk result (λ o. IfSome o (λ p. (at < p.next) × (p.next ≤ length tokens.now))) }
{
    let rule = postfix_rule(tokens, at)?;
    match rule {
        PostfixRule::Index => index(alloc, tokens, at, depth),
        PostfixRule::Call => call(alloc, tokens, at, depth),
        PostfixRule::Dot => dot(alloc, tokens, at, depth),
        PostfixRule::Arrow => arrow(alloc, tokens, at, depth),
        PostfixRule::Increment => increment(tokens, at, depth),
        PostfixRule::Decrement => decrement(tokens, at, depth),
        PostfixRule::End => Ok(None),
    }
}

#[cycle(expressions)]
fn index(
    alloc: Global,
    tokens: &[Token],
    at: usize,
    depth: u32,
) -> Result<Option<Parsed<Postfix>>, ParseError>
    requires within { at ≤ length tokens.now }
    requires few { length tokens.now < 2 ^ 32 }
    requires shallow { depth ≤ 200 }
    ensures parses { Adds tokens.now (wanted at (postfix_number PostfixRule.Index)) at depth result }
    ensures goes_on { IfOk result (λ o. IfSome o (λ p. (at < p.next) × (p.next ≤ length tokens.now))) }
{
    let inside = expect(tokens, at, TokenKind::OpenBracket)?;
    let place = expression(alloc, tokens, inside, depth)?;
    let next = expect(tokens, place.next, TokenKind::CloseBracket)?;
    let span = span_of(tokens, at, next);
    Ok(Some(Parsed {
        tree: Postfix::Index(span, place.tree),
        next,
    }))
}

#[cycle(expressions)]
fn call(
    alloc: Global,
    tokens: &[Token],
    at: usize,
    depth: u32,
) -> Result<Option<Parsed<Postfix>>, ParseError>
    requires within { at ≤ length tokens.now }
    requires few { length tokens.now < 2 ^ 32 }
    requires shallow { depth ≤ 200 }
    ensures parses { Adds tokens.now (wanted at (postfix_number PostfixRule.Call)) at depth result }
    ensures goes_on { IfOk result (λ o. IfSome o (λ p. (at < p.next) × (p.next ≤ length tokens.now))) }
{
    let inside = expect(tokens, at, TokenKind::OpenParen)?;
    let values = arguments(alloc, tokens, inside, depth)?;
    let next = expect(tokens, values.next, TokenKind::CloseParen)?;
    let span = span_of(tokens, at, next);
    Ok(Some(Parsed {
        tree: Postfix::called(span, values.tree),
        next,
    }))
}

#[cycle(expressions)]
fn arguments(
    alloc: Global,
    tokens: &[Token],
    at: usize,
    depth: u32,
) -> Result<Parsed<Vec<Expr>>, ParseError>
    requires within { at ≤ length tokens.now }
    requires few { length tokens.now < 2 ^ 32 }
    requires shallow { depth ≤ 200 }
    ensures parses { Parses [] of_exprs tokens.now (gives Symbol.Arguments ∷ []) at depth result }
    ensures goes_on { IfOk result (λ p. (at ≤ p.next) × (p.next ≤ length tokens.now)) }
{
    let stands = takes_first(tokens, at, Symbol::Arguments)?;
    if stands {
        let first = expression(alloc, tokens, at, depth)?;
        let values = one(alloc, first.tree)?;
        let all = more_arguments(alloc, tokens, first.next, depth, values)?;
        return Ok(all);
    }
    Ok(Parsed {
        tree: Vec::new(alloc),
        next: at,
    })
}

#[cycle(expressions)]
fn more_arguments(
    alloc: Global,
    tokens: &[Token],
    at: usize,
    depth: u32,
    mut values: Vec<Expr>,
) -> Result<Parsed<Vec<Expr>>, ParseError>
    requires within { at ≤ length tokens.now }
    requires few { length tokens.now < 2 ^ 32 }
    requires shallow { depth ≤ 200 }
    ensures parses { Parses (of_exprs values) of_exprs tokens.now (gives Symbol.MoreArguments ∷ []) at depth result }
    ensures goes_on { IfOk result (λ p. (at ≤ p.next) × (p.next ≤ length tokens.now)) }
{
    let mut next = at;
    loop {
        let more = takes_first(tokens, next, Symbol::MoreArguments)?;
        if !more {
            return Ok(Parsed { tree: values, next });
        }
        let after = expect(tokens, next, TokenKind::Comma)?;
        let one = expression(alloc, tokens, after, depth)?;
        push_few(&mut values, one.tree)?;
        next = one.next;
    }
}
