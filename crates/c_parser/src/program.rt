// Whole programs.
ghost use Rattle.std.specs.Prelude.{◌≡◌, ◌+◌, ◌<◌, ◌≤◌, ◌^◌, ◌++◌, length, IfOk, Some, None, List, ℕ, [], ◌∷◌, IsTrue, true, false};
ghost use Rattle.c_grammar.specs.Machine.{takes, gives, opens, builds, wanted};
ghost use Rattle.std.specs.Prelude.{map};
ghost use Rattle.c_parser.specs.Parses.{Parses};
ghost use Rattle.c_parser.specs.Parts.{of_item, of_items, of_declarator, of_body};
ghost use Rattle.c_parser.specs.Rests.{of_rest};
ghost use Rattle.c_parser.specs.Answer.{IsAnswer};
ghost use Rattle.c_lexer.specs.Values.{ValuesFit};

use crate::declarations::{initializer, more_objects, parameters};
use crate::declarators::declarator;
use crate::error::ParseError;
use crate::parsed::Parsed;
use crate::rest::Rest;
use crate::specifiers::specifiers;
use crate::statements::block;
use crate::text::{begin, expect, one, span_of, takes_first};
use c_grammar::Symbol;
use c_lexer::{Token, TokenKind};
use pt_tree::{Block, Declarator, InitDeclarator, Item, Program};
use std::alloc::Global;

/// The tree of a program, as the derivation by the grammar gives it. A fault is at the first token,
/// or the end, that has no rule for the symbol wanted or isn't the token wanted. Nesting goes too
/// deep where a 201st counted symbol would open.
///
/// The tokens are 1,048,576 or fewer, the value of each constant is in the range of its type, and no
/// name is longer than 1,048,576 bytes. The tokens of `lex` are so.
///
/// # Errors
/// `FaultAt`, `TooDeep`, whichever comes first, or want of memory.
pub fn parse(alloc: Global, tokens: &[Token]) -> Result<Program, ParseError>
    requires few { length tokens.now ≤ 1048576 }
    requires fit { ValuesFit tokens.now }
    ensures { IsAnswer tokens.now result }
{
    let items = Vec::new(alloc);
    let all = more_external(alloc, tokens, 0, 0, items)?;
    Ok(Program { items: all.tree })
}

fn more_external(
    alloc: Global,
    tokens: &[Token],
    at: usize,
    depth: u32,
    mut items: Vec<Item>,
) -> Result<Parsed<Vec<Item>>, ParseError>
    requires within { at ≤ length tokens.now }
    requires few { length tokens.now < 2 ^ 32 }
    requires shallow { depth ≤ 200 }
    ensures parses { Parses (of_items items) of_items tokens.now (gives Symbol.TranslationUnit ∷ []) at depth result }
    ensures goes_on { IfOk result (λ p. (at ≤ p.next) × (p.next ≤ length tokens.now)) }
{
    let mut next = at;
    loop {
        let more = takes_first(tokens, next, Symbol::TranslationUnit)?;
        if !more {
            return Ok(Parsed { tree: items, next });
        }
        let one = external(alloc, tokens, next, depth)?;
        items.push(one.tree)?;
        next = one.next;
    }
}

fn external(
    alloc: Global,
    tokens: &[Token],
    at: usize,
    depth: u32,
) -> Result<Parsed<Item>, ParseError>
    requires within { at ≤ length tokens.now }
    requires few { length tokens.now < 2 ^ 32 }
    requires shallow { depth ≤ 200 }
    ensures parses { Parses [] of_item tokens.now (gives Symbol.External ∷ []) at depth result }
    ensures goes_on { IfOk result (λ p. (at < p.next) × (p.next ≤ length tokens.now)) }
{
    begin(tokens, at, Symbol::External)?;
    let specs = specifiers(alloc, tokens, at, depth)?;
    let rest = external_rest(alloc, tokens, specs.next, depth)?;
    let span = span_of(tokens, at, rest.next);
    let tree = rest.tree.into_item(span, specs.tree);
    Ok(Parsed {
        tree,
        next: rest.next,
    })
}

fn external_rest(
    alloc: Global,
    tokens: &[Token],
    at: usize,
    depth: u32,
) -> Result<Parsed<Rest>, ParseError>
    requires within { at ≤ length tokens.now }
    requires few { length tokens.now < 2 ^ 32 }
    requires shallow { depth ≤ 200 }
    ensures parses { Parses [] of_rest tokens.now (gives Symbol.ExternalRest ∷ []) at depth result }
    ensures goes_on { IfOk result (λ p. (at < p.next) × (p.next ≤ length tokens.now)) }
{
    let ends = takes_first(tokens, at, Symbol::ExternalRest)?;
    if ends {
        let next = expect(tokens, at, TokenKind::Semicolon)?;
        return Ok(Parsed {
            tree: Rest::Declares(Vec::new(alloc)),
            next,
        });
    }
    let first = declarator(alloc, tokens, at)?;
    let name = first.tree;
    let tail = external_tail(alloc, tokens, first.next, depth, name)?;
    Ok(tail)
}

fn external_tail(
    alloc: Global,
    tokens: &[Token],
    at: usize,
    depth: u32,
    first: Declarator,
) -> Result<Parsed<Rest>, ParseError>
    requires within { at ≤ length tokens.now }
    requires few { length tokens.now < 2 ^ 32 }
    requires shallow { depth ≤ 200 }
    ensures parses { Parses (of_declarator first) of_rest tokens.now (gives Symbol.ExternalTail ∷ []) at depth result }
    ensures goes_on { IfOk result (λ p. (at < p.next) × (p.next ≤ length tokens.now)) }
{
    let takes = takes_first(tokens, at, Symbol::ExternalTail)?;
    if takes {
        let inside = expect(tokens, at, TokenKind::OpenParen)?;
        let params = parameters(alloc, tokens, inside, depth)?;
        let closed = expect(tokens, params.next, TokenKind::CloseParen)?;
        let body = function_end(alloc, tokens, closed, depth)?;
        return Ok(Parsed {
            tree: Rest::Defines(first, params.tree, body.tree),
            next: body.next,
        });
    }
    let init = initializer(alloc, tokens, at, depth)?;
    let objects = one(
        alloc,
        InitDeclarator {
            declarator: first,
            init: init.tree,
        },
    )?;
    let all = more_objects(alloc, tokens, init.next, depth, objects)?;
    let next = expect(tokens, all.next, TokenKind::Semicolon)?;
    Ok(Parsed {
        tree: Rest::Declares(all.tree),
        next,
    })
}

fn function_end(
    alloc: Global,
    tokens: &[Token],
    at: usize,
    depth: u32,
) -> Result<Parsed<Option<Block>>, ParseError>
    requires within { at ≤ length tokens.now }
    requires few { length tokens.now < 2 ^ 32 }
    requires shallow { depth ≤ 200 }
    ensures parses { Parses [] of_body tokens.now (gives Symbol.FunctionEnd ∷ []) at depth result }
    ensures goes_on { IfOk result (λ p. (at < p.next) × (p.next ≤ length tokens.now)) }
{
    let ends = takes_first(tokens, at, Symbol::FunctionEnd)?;
    if ends {
        let next = expect(tokens, at, TokenKind::Semicolon)?;
        return Ok(Parsed { tree: None, next });
    }
    let body = block(alloc, tokens, at, depth)?;
    Ok(Parsed {
        tree: Some(body.tree),
        next: body.next,
    })
}
