// Declarators: the declared name with what stands round it.
ghost use Rattle.std.specs.Prelude.{◌≡◌, ◌+◌, ◌<◌, ◌≤◌, ◌^◌, ◌++◌, length, IfOk, Some, None, List, ℕ, [], ◌∷◌, IsTrue, true, false};
ghost use Rattle.c_grammar.specs.Machine.{takes, gives, opens, builds, wanted};
ghost use Rattle.c_parser.specs.Parses.{Parses};
ghost use Rattle.c_parser.specs.Parts.{of_pointer, of_suffix, of_declarator, of_name, of_declarators};

use crate::error::ParseError;
use crate::parsed::Parsed;
use crate::text::{begin, constant, expect, identifier, span_of, takes_first};
use c_grammar::Symbol;
use c_lexer::{Token, TokenKind};
use pt_tree::{Declarator, Suffix, Word};
use std::alloc::Global;

pub(crate) fn star(tokens: &[Token], at: usize) -> Result<Parsed<bool>, ParseError>
    requires within { at ≤ length tokens.now }
    requires few { length tokens.now < 2 ^ 32 }
    ensures parses { (depth : ℕ) → Parses [] of_pointer tokens.now (gives Symbol.Star ∷ []) at depth result }
    ensures goes_on { IfOk result (λ p. (at ≤ p.next) × (p.next ≤ length tokens.now)) }
{
    let stands = takes_first(tokens, at, Symbol::Star)?;
    if stands {
        let next = expect(tokens, at, TokenKind::Star)?;
        return Ok(Parsed { tree: true, next });
    }
    Ok(Parsed {
        tree: false,
        next: at,
    })
}

pub(crate) fn suffix(tokens: &[Token], at: usize) -> Result<Parsed<Suffix>, ParseError>
    requires within { at ≤ length tokens.now }
    requires few { length tokens.now < 2 ^ 32 }
    ensures parses { (depth : ℕ) → Parses [] of_suffix tokens.now (gives Symbol.Suffix ∷ []) at depth result }
    ensures goes_on { IfOk result (λ p. (at ≤ p.next) × (p.next ≤ length tokens.now)) }
{
    let stands = takes_first(tokens, at, Symbol::Suffix)?;
    if stands {
        let inside = expect(tokens, at, TokenKind::OpenBracket)?;
        let size = array_size(tokens, inside)?;
        let next = expect(tokens, size.next, TokenKind::CloseBracket)?;
        return Ok(Parsed {
            tree: size.tree,
            next,
        });
    }
    Ok(Parsed {
        tree: Suffix::Plain,
        next: at,
    })
}

fn array_size(tokens: &[Token], at: usize) -> Result<Parsed<Suffix>, ParseError>
    requires within { at ≤ length tokens.now }
    requires few { length tokens.now < 2 ^ 32 }
    ensures parses { (depth : ℕ) → Parses [] of_suffix tokens.now (gives Symbol.Size ∷ []) at depth result }
    ensures goes_on { IfOk result (λ p. (at ≤ p.next) × (p.next ≤ length tokens.now)) }
{
    let stands = takes_first(tokens, at, Symbol::Size)?;
    if stands {
        let size = constant(tokens, at, TokenKind::Number)?;
        return Ok(Parsed {
            tree: Suffix::Sized(size),
            next: at + 1,
        });
    }
    Ok(Parsed {
        tree: Suffix::Open,
        next: at,
    })
}

/// The name of a parameter, if it has one.
pub(crate) fn parameter_name(
    alloc: Global,
    tokens: &[Token],
    at: usize,
) -> Result<Parsed<Option<Word>>, ParseError>
    requires within { at ≤ length tokens.now }
    requires few { length tokens.now < 2 ^ 32 }
    ensures parses { (depth : ℕ) → Parses [] of_name tokens.now (gives Symbol.Name ∷ []) at depth result }
    ensures goes_on { IfOk result (λ p. (at ≤ p.next) × (p.next ≤ length tokens.now)) }
{
    let stands = takes_first(tokens, at, Symbol::Name)?;
    if stands {
        let word = identifier(alloc, tokens, at)?;
        return Ok(Parsed {
            tree: Some(word),
            next: at + 1,
        });
    }
    Ok(Parsed {
        tree: None,
        next: at,
    })
}

pub(crate) fn declarator(
    alloc: Global,
    tokens: &[Token],
    at: usize,
) -> Result<Parsed<Declarator>, ParseError>
    requires within { at ≤ length tokens.now }
    requires few { length tokens.now < 2 ^ 32 }
    ensures parses { (depth : ℕ) → Parses [] of_declarator tokens.now (gives Symbol.Declarator ∷ []) at depth result }
    ensures goes_on { IfOk result (λ p. (at < p.next) × (p.next ≤ length tokens.now)) }
{
    begin(tokens, at, Symbol::Declarator)?;
    let star = star(tokens, at)?;
    let name = identifier(alloc, tokens, star.next)?;
    let suffix = suffix(tokens, star.next + 1)?;
    let span = span_of(tokens, at, suffix.next);
    Ok(Parsed {
        tree: Declarator {
            span,
            pointer: star.tree,
            name,
            suffix: suffix.tree,
        },
        next: suffix.next,
    })
}

/// The declarators of fields after the first.
pub(crate) fn more_declarators(
    alloc: Global,
    tokens: &[Token],
    at: usize,
    mut declarators: Vec<Declarator>,
) -> Result<Parsed<Vec<Declarator>>, ParseError>
    requires within { at ≤ length tokens.now }
    requires few { length tokens.now < 2 ^ 32 }
    ensures parses { (depth : ℕ) → Parses (of_declarators declarators) of_declarators tokens.now (gives Symbol.MoreDeclarators ∷ []) at depth result }
    ensures goes_on { IfOk result (λ p. (at ≤ p.next) × (p.next ≤ length tokens.now)) }
{
    let mut next = at;
    loop {
        let more = takes_first(tokens, next, Symbol::MoreDeclarators)?;
        if !more {
            return Ok(Parsed {
                tree: declarators,
                next,
            });
        }
        let after = expect(tokens, next, TokenKind::Comma)?;
        let one = declarator(alloc, tokens, after)?;
        declarators.push(one.tree)?;
        next = one.next;
    }
}
