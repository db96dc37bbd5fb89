// Declarations, the values of declared objects, and parameters.
ghost use Rattle.std.specs.Prelude.{◌≡◌, ◌+◌, ◌<◌, ◌≤◌, ◌^◌, ◌++◌, length, IfOk, Some, None, List, ℕ, [], ◌∷◌, IsTrue, true, false};
ghost use Rattle.c_grammar.specs.Machine.{takes, gives, opens, builds, wanted};
ghost use Rattle.c_parser.specs.Parses.{Parses};
ghost use Rattle.c_parser.specs.Parts.{of_declaration, of_init, of_initializer, of_inits, of_exprs, of_param, of_params};

use crate::declarators::{declarator, parameter_name, star, suffix};
use crate::error::ParseError;
use crate::expressions::expression;
use crate::parsed::Parsed;
use crate::specifiers::specifiers;
use crate::text::{begin, expect, one, span_of, takes_first};
use c_grammar::Symbol;
use c_lexer::{Token, TokenKind};
use pt_tree::{Declaration, Expr, InitDeclarator, Initializer, ParamDecl};
use std::alloc::Global;

pub(crate) fn declaration(
    alloc: Global,
    tokens: &[Token],
    at: usize,
    depth: u32,
) -> Result<Parsed<Declaration>, ParseError>
    requires within { at ≤ length tokens.now }
    requires few { length tokens.now < 2 ^ 32 }
    requires shallow { depth ≤ 200 }
    ensures parses { Parses [] of_declaration tokens.now (gives Symbol.Declaration ∷ []) at depth result }
    ensures goes_on { IfOk result (λ p. (at < p.next) × (p.next ≤ length tokens.now)) }
{
    begin(tokens, at, Symbol::Declaration)?;
    let specs = specifiers(alloc, tokens, at, depth)?;
    let rest = declaration_rest(alloc, tokens, specs.next, depth)?;
    let span = span_of(tokens, at, rest.next);
    Ok(Parsed {
        tree: Declaration {
            span,
            specs: specs.tree,
            declarators: rest.tree,
        },
        next: rest.next,
    })
}

fn declaration_rest(
    alloc: Global,
    tokens: &[Token],
    at: usize,
    depth: u32,
) -> Result<Parsed<Vec<InitDeclarator>>, ParseError>
    requires within { at ≤ length tokens.now }
    requires few { length tokens.now < 2 ^ 32 }
    requires shallow { depth ≤ 200 }
    ensures parses { Parses [] of_inits tokens.now (gives Symbol.DeclarationRest ∷ []) at depth result }
    ensures goes_on { IfOk result (λ p. (at < p.next) × (p.next ≤ length tokens.now)) }
{
    let ends = takes_first(tokens, at, Symbol::DeclarationRest)?;
    if ends {
        let end = expect(tokens, at, TokenKind::Semicolon)?;
        return Ok(Parsed {
            tree: Vec::new(alloc),
            next: end,
        });
    }
    let first = declarator(alloc, tokens, at)?;
    let init = initializer(alloc, tokens, first.next, depth)?;
    let objects = one(
        alloc,
        InitDeclarator {
            declarator: first.tree,
            init: init.tree,
        },
    )?;
    let all = more_objects(alloc, tokens, init.next, depth, objects)?;
    let next = expect(tokens, all.next, TokenKind::Semicolon)?;
    Ok(Parsed {
        tree: all.tree,
        next,
    })
}

/// The declarators of objects after the first.
pub(crate) fn more_objects(
    alloc: Global,
    tokens: &[Token],
    at: usize,
    depth: u32,
    mut objects: Vec<InitDeclarator>,
) -> Result<Parsed<Vec<InitDeclarator>>, ParseError>
    requires within { at ≤ length tokens.now }
    requires few { length tokens.now < 2 ^ 32 }
    requires shallow { depth ≤ 200 }
    ensures parses { Parses (of_inits objects) of_inits tokens.now (gives Symbol.More ∷ []) at depth result }
    ensures goes_on { IfOk result (λ p. (at ≤ p.next) × (p.next ≤ length tokens.now)) }
{
    let mut next = at;
    loop {
        let more = takes_first(tokens, next, Symbol::More)?;
        if !more {
            return Ok(Parsed {
                tree: objects,
                next,
            });
        }
        let after = expect(tokens, next, TokenKind::Comma)?;
        let one = declarator(alloc, tokens, after)?;
        let init = initializer(alloc, tokens, one.next, depth)?;
        objects.push(InitDeclarator {
            declarator: one.tree,
            init: init.tree,
        })?;
        next = init.next;
    }
}

/// The value of a declared object, if it has one.
pub(crate) fn initializer(
    alloc: Global,
    tokens: &[Token],
    at: usize,
    depth: u32,
) -> Result<Parsed<Option<Initializer>>, ParseError>
    requires within { at ≤ length tokens.now }
    requires few { length tokens.now < 2 ^ 32 }
    requires shallow { depth ≤ 200 }
    ensures parses { Parses [] of_init tokens.now (gives Symbol.Init ∷ []) at depth result }
    ensures goes_on { IfOk result (λ p. (at ≤ p.next) × (p.next ≤ length tokens.now)) }
{
    let stands = takes_first(tokens, at, Symbol::Init)?;
    if stands {
        let after = expect(tokens, at, TokenKind::Equal)?;
        let value = initial_value(alloc, tokens, after, depth)?;
        return Ok(Parsed {
            tree: Some(value.tree),
            next: value.next,
        });
    }
    Ok(Parsed {
        tree: None,
        next: at,
    })
}

fn initial_value(
    alloc: Global,
    tokens: &[Token],
    at: usize,
    depth: u32,
) -> Result<Parsed<Initializer>, ParseError>
    requires within { at ≤ length tokens.now }
    requires few { length tokens.now < 2 ^ 32 }
    requires shallow { depth ≤ 200 }
    ensures parses { Parses [] of_initializer tokens.now (gives Symbol.InitValue ∷ []) at depth result }
    ensures goes_on { IfOk result (λ p. (at < p.next) × (p.next ≤ length tokens.now)) }
{
    let single = takes_first(tokens, at, Symbol::InitValue)?;
    if single {
        let value = expression(alloc, tokens, at, depth)?;
        return Ok(Parsed {
            tree: Initializer::Single(value.tree),
            next: value.next,
        });
    }
    let inside = expect(tokens, at, TokenKind::OpenBrace)?;
    let first = expression(alloc, tokens, inside, depth)?;
    let values = one(alloc, first.tree)?;
    let all = more_values(alloc, tokens, first.next, depth, values)?;
    let next = expect(tokens, all.next, TokenKind::CloseBrace)?;
    let span = span_of(tokens, at, next);
    Ok(Parsed {
        tree: Initializer::Braces(span, all.tree),
        next,
    })
}

// The values in braces after the first. A comma may stand behind the last.
fn more_values(
    alloc: Global,
    tokens: &[Token],
    at: usize,
    depth: u32,
    mut values: Vec<Expr>,
) -> Result<Parsed<Vec<Expr>>, ParseError>
    requires within { at ≤ length tokens.now }
    requires few { length tokens.now < 2 ^ 32 }
    requires shallow { depth ≤ 200 }
    ensures parses { Parses (of_exprs values) of_exprs tokens.now (gives Symbol.InitItems ∷ []) at depth result }
    ensures goes_on { IfOk result (λ p. (at ≤ p.next) × (p.next ≤ length tokens.now)) }
{
    let mut next = at;
    loop {
        let more = takes_first(tokens, next, Symbol::InitItems)?;
        if !more {
            return Ok(Parsed { tree: values, next });
        }
        let after = expect(tokens, next, TokenKind::Comma)?;
        let again = takes_first(tokens, after, Symbol::InitNext)?;
        if !again {
            return Ok(Parsed {
                tree: values,
                next: after,
            });
        }
        let one = expression(alloc, tokens, after, depth)?;
        values.push(one.tree)?;
        next = one.next;
    }
}

/// The parameters of a function.
pub(crate) fn parameters(
    alloc: Global,
    tokens: &[Token],
    at: usize,
    depth: u32,
) -> Result<Parsed<Vec<ParamDecl>>, ParseError>
    requires within { at ≤ length tokens.now }
    requires few { length tokens.now < 2 ^ 32 }
    requires shallow { depth ≤ 200 }
    ensures parses { Parses [] of_params tokens.now (gives Symbol.Params ∷ []) at depth result }
    ensures goes_on { IfOk result (λ p. (at ≤ p.next) × (p.next ≤ length tokens.now)) }
{
    let stands = takes_first(tokens, at, Symbol::Params)?;
    if stands {
        let first = parameter(alloc, tokens, at, depth)?;
        let params = one(alloc, first.tree)?;
        let all = more_parameters(alloc, tokens, first.next, depth, params)?;
        return Ok(all);
    }
    Ok(Parsed {
        tree: Vec::new(alloc),
        next: at,
    })
}

fn more_parameters(
    alloc: Global,
    tokens: &[Token],
    at: usize,
    depth: u32,
    mut params: Vec<ParamDecl>,
) -> Result<Parsed<Vec<ParamDecl>>, ParseError>
    requires within { at ≤ length tokens.now }
    requires few { length tokens.now < 2 ^ 32 }
    requires shallow { depth ≤ 200 }
    ensures parses { Parses (of_params params) of_params tokens.now (gives Symbol.MoreParams ∷ []) at depth result }
    ensures goes_on { IfOk result (λ p. (at ≤ p.next) × (p.next ≤ length tokens.now)) }
{
    let mut next = at;
    loop {
        let more = takes_first(tokens, next, Symbol::MoreParams)?;
        if !more {
            return Ok(Parsed { tree: params, next });
        }
        let after = expect(tokens, next, TokenKind::Comma)?;
        let one = parameter(alloc, tokens, after, depth)?;
        params.push(one.tree)?;
        next = one.next;
    }
}

fn parameter(
    alloc: Global,
    tokens: &[Token],
    at: usize,
    depth: u32,
) -> Result<Parsed<ParamDecl>, ParseError>
    requires within { at ≤ length tokens.now }
    requires few { length tokens.now < 2 ^ 32 }
    requires shallow { depth ≤ 200 }
    ensures parses { Parses [] of_param tokens.now (gives Symbol.Param ∷ []) at depth result }
    ensures goes_on { IfOk result (λ p. (at < p.next) × (p.next ≤ length tokens.now)) }
{
    begin(tokens, at, Symbol::Param)?;
    let specs = specifiers(alloc, tokens, at, depth)?;
    let pointer = star(tokens, specs.next)?;
    let name = parameter_name(alloc, tokens, pointer.next)?;
    let suffix = suffix(tokens, name.next)?;
    let span = span_of(tokens, at, suffix.next);
    Ok(Parsed {
        tree: ParamDecl {
            span,
            specs: specs.tree,
            pointer: pointer.tree,
            name: name.tree,
            suffix: suffix.tree,
        },
        next: suffix.next,
    })
}
