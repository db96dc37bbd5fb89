// Specifiers, with the fields of structs.
ghost use Rattle.std.specs.Prelude.{◌≡◌, ◌+◌, ◌<◌, ◌≤◌, ◌^◌, ◌++◌, length, IfOk, Some, None, List, ℕ, [], ◌∷◌, IsTrue, true, false};
ghost use Rattle.c_grammar.specs.Machine.{takes, gives, opens, builds, wanted};
ghost use Rattle.c_parser.specs.Parses.{Parses, is_fixed};
ghost use Rattle.c_parser.specs.Parts.{of_specs, of_spec, of_names, of_fields, of_field};
ghost use Rattle.c_grammar.specs.Builds.{keyword};

use crate::declarators::{declarator, more_declarators};
use crate::error::ParseError;
use crate::parsed::Parsed;
use crate::text::{DEEPEST, begin, choose, expect, identifier, one, span_of, takes_first};
use c_grammar::Symbol;
use c_lexer::{Token, TokenKind};
use pt_tree::{FieldDecl, Spec, SpecWord, Word};
use std::alloc::Global;

#[cycle(specifiers)]
pub(crate) fn specifiers(
    alloc: Global,
    tokens: &[Token],
    at: usize,
    depth: u32,
) -> Result<Parsed<Vec<Spec>>, ParseError>
    requires within { at ≤ length tokens.now }
    requires few { length tokens.now < 2 ^ 32 }
    requires shallow { depth ≤ 200 }
    ensures parses { Parses [] of_specs tokens.now (gives Symbol.Specs ∷ []) at depth result }
    ensures goes_on { IfOk result (λ p. (at < p.next) × (p.next ≤ length tokens.now)) }
{
    begin(tokens, at, Symbol::Specs)?;
    let first = specifier(alloc, tokens, at, depth)?;
    let specs = one(alloc, first.tree)?;
    let all = more_specifiers(alloc, tokens, first.next, depth, specs)?;
    Ok(all)
}

#[cycle(specifiers)]
fn more_specifiers(
    alloc: Global,
    tokens: &[Token],
    at: usize,
    depth: u32,
    mut specs: Vec<Spec>,
) -> Result<Parsed<Vec<Spec>>, ParseError>
    requires within { at ≤ length tokens.now }
    requires few { length tokens.now < 2 ^ 32 }
    requires shallow { depth ≤ 200 }
    ensures parses { Parses (of_specs specs) of_specs tokens.now (gives Symbol.MoreSpecs ∷ []) at depth result }
    ensures goes_on { IfOk result (λ p. (at ≤ p.next) × (p.next ≤ length tokens.now)) }
{
    let mut next = at;
    loop {
        let more = takes_first(tokens, next, Symbol::MoreSpecs)?;
        if !more {
            return Ok(Parsed { tree: specs, next });
        }
        let one = specifier(alloc, tokens, next, depth)?;
        specs.push(one.tree)?;
        next = one.next;
    }
}

#[cycle(specifiers)]
fn specifier(
    alloc: Global,
    tokens: &[Token],
    at: usize,
    depth: u32,
) -> Result<Parsed<Spec>, ParseError>
    requires within { at ≤ length tokens.now }
    requires few { length tokens.now < 2 ^ 32 }
    requires shallow { depth ≤ 200 }
    ensures parses { Parses [] of_spec tokens.now (gives Symbol.Spec ∷ []) at depth result }
    ensures goes_on { IfOk result (λ p. (at < p.next) × (p.next ≤ length tokens.now)) }
{
    let rule = choose(tokens, at, Symbol::Spec)?;
    match rule {
        13 => attribute(alloc, tokens, at),
        14 => word(tokens, at, TokenKind::Extern, SpecWord::Extern),
        15 => word(tokens, at, TokenKind::Static, SpecWord::Static),
        16 => word(tokens, at, TokenKind::Const, SpecWord::Const),
        17 => word(tokens, at, TokenKind::Void, SpecWord::Void),
        18 => word(tokens, at, TokenKind::Char, SpecWord::Char),
        19 => word(tokens, at, TokenKind::Short, SpecWord::Short),
        20 => word(tokens, at, TokenKind::Int, SpecWord::Int),
        21 => word(tokens, at, TokenKind::Long, SpecWord::Long),
        22 => word(tokens, at, TokenKind::Signed, SpecWord::Signed),
        23 => word(tokens, at, TokenKind::Unsigned, SpecWord::Unsigned),
        _ => structure(alloc, tokens, at, depth),
    }
}

fn word(
    tokens: &[Token],
    at: usize,
    kind: TokenKind,
    word: SpecWord,
) -> Result<Parsed<Spec>, ParseError>
    requires within { at ≤ length tokens.now }
    requires few { length tokens.now < 2 ^ 32 }
    requires fixed { IsTrue (is_fixed kind) }
    ensures parses { (depth : ℕ) → Parses [] of_spec tokens.now (takes kind ∷ builds at (keyword word) ∷ []) at depth result }
    ensures goes_on { IfOk result (λ p. (at < p.next) × (p.next ≤ length tokens.now)) }
{
    let next = expect(tokens, at, kind)?;
    let span = span_of(tokens, at, next);
    Ok(Parsed {
        tree: Spec::Keyword(span, word),
        next,
    })
}

fn attribute(alloc: Global, tokens: &[Token], at: usize) -> Result<Parsed<Spec>, ParseError>
    requires within { at ≤ length tokens.now }
    requires few { length tokens.now < 2 ^ 32 }
    ensures parses { (depth : ℕ) → Parses [] of_spec tokens.now (gives Symbol.Attribute ∷ []) at depth result }
    ensures goes_on { IfOk result (λ p. (at < p.next) × (p.next ≤ length tokens.now)) }
{
    begin(tokens, at, Symbol::Attribute)?;
    let after = expect(tokens, at, TokenKind::Attribute)?;
    let outer = expect(tokens, after, TokenKind::OpenParen)?;
    let inner = expect(tokens, outer, TokenKind::OpenParen)?;
    let first = identifier(alloc, tokens, inner)?;
    let names = one(alloc, first)?;
    let all = more_names(alloc, tokens, inner + 1, names)?;
    let closed = expect(tokens, all.next, TokenKind::CloseParen)?;
    let next = expect(tokens, closed, TokenKind::CloseParen)?;
    let span = span_of(tokens, at, next);
    Ok(Parsed {
        tree: Spec::Attribute(span, all.tree),
        next,
    })
}

fn more_names(
    alloc: Global,
    tokens: &[Token],
    at: usize,
    mut names: Vec<Word>,
) -> Result<Parsed<Vec<Word>>, ParseError>
    requires within { at ≤ length tokens.now }
    requires few { length tokens.now < 2 ^ 32 }
    ensures parses { (depth : ℕ) → Parses (of_names names) of_names tokens.now (gives Symbol.MoreNames ∷ []) at depth result }
    ensures goes_on { IfOk result (λ p. (at ≤ p.next) × (p.next ≤ length tokens.now)) }
{
    let mut next = at;
    loop {
        let more = takes_first(tokens, next, Symbol::MoreNames)?;
        if !more {
            return Ok(Parsed { tree: names, next });
        }
        let after = expect(tokens, next, TokenKind::Comma)?;
        let name = identifier(alloc, tokens, after)?;
        names.push(name)?;
        next = after + 1;
    }
}

#[cycle(specifiers)]
fn structure(
    alloc: Global,
    tokens: &[Token],
    at: usize,
    depth: u32,
) -> Result<Parsed<Spec>, ParseError>
    requires within { at ≤ length tokens.now }
    requires few { length tokens.now < 2 ^ 32 }
    requires shallow { depth ≤ 200 }
    ensures parses { Parses [] of_spec tokens.now (gives Symbol.Struct ∷ []) at depth result }
    ensures goes_on { IfOk result (λ p. (at < p.next) × (p.next ≤ length tokens.now)) }
{
    begin(tokens, at, Symbol::Struct)?;
    let after = expect(tokens, at, TokenKind::Struct)?;
    let tag = identifier(alloc, tokens, after)?;
    let body = struct_body(alloc, tokens, after + 1, depth)?;
    let span = span_of(tokens, at, body.next);
    Ok(Parsed {
        tree: Spec::structure(span, tag, body.tree),
        next: body.next,
    })
}

#[cycle(specifiers)]
fn struct_body(
    alloc: Global,
    tokens: &[Token],
    at: usize,
    depth: u32,
) -> Result<Parsed<Vec<FieldDecl>>, ParseError>
    requires within { at ≤ length tokens.now }
    requires few { length tokens.now < 2 ^ 32 }
    requires shallow { depth ≤ 200 }
    ensures parses { Parses [] of_fields tokens.now (gives Symbol.StructBody ∷ []) at depth result }
    ensures goes_on { IfOk result (λ p. (at ≤ p.next) × (p.next ≤ length tokens.now)) }
{
    let stands = takes_first(tokens, at, Symbol::StructBody)?;
    if stands {
        let inside = expect(tokens, at, TokenKind::OpenBrace)?;
        let first = field(alloc, tokens, inside, depth)?;
        let fields = one(alloc, first.tree)?;
        let all = more_fields(alloc, tokens, first.next, depth, fields)?;
        let next = expect(tokens, all.next, TokenKind::CloseBrace)?;
        return Ok(Parsed {
            tree: all.tree,
            next,
        });
    }
    Ok(Parsed {
        tree: Vec::new(alloc),
        next: at,
    })
}

#[cycle(specifiers)]
fn more_fields(
    alloc: Global,
    tokens: &[Token],
    at: usize,
    depth: u32,
    mut fields: Vec<FieldDecl>,
) -> Result<Parsed<Vec<FieldDecl>>, ParseError>
    requires within { at ≤ length tokens.now }
    requires few { length tokens.now < 2 ^ 32 }
    requires shallow { depth ≤ 200 }
    ensures parses { Parses (of_fields fields) of_fields tokens.now (gives Symbol.Fields ∷ []) at depth result }
    ensures goes_on { IfOk result (λ p. (at ≤ p.next) × (p.next ≤ length tokens.now)) }
{
    let mut next = at;
    loop {
        let more = takes_first(tokens, next, Symbol::Fields)?;
        if !more {
            return Ok(Parsed { tree: fields, next });
        }
        let one = field(alloc, tokens, next, depth)?;
        fields.push(one.tree)?;
        next = one.next;
    }
}

#[cycle(specifiers)]
fn field(
    alloc: Global,
    tokens: &[Token],
    at: usize,
    depth: u32,
) -> Result<Parsed<FieldDecl>, ParseError>
    requires within { at ≤ length tokens.now }
    requires few { length tokens.now < 2 ^ 32 }
    requires shallow { depth ≤ 200 }
    ensures parses { Parses [] of_field tokens.now (opens Symbol.Field ∷ []) at depth result }
    ensures goes_on { IfOk result (λ p. (at < p.next) × (p.next ≤ length tokens.now)) }
{
    if depth == DEEPEST {
        return Err(ParseError::TooDeep(at as u32));
    }
    field_declaration(alloc, tokens, at, depth + 1)
}

#[cycle(specifiers)]
fn field_declaration(
    alloc: Global,
    tokens: &[Token],
    at: usize,
    depth: u32,
) -> Result<Parsed<FieldDecl>, ParseError>
    requires within { at ≤ length tokens.now }
    requires few { length tokens.now < 2 ^ 32 }
    requires shallow { depth ≤ 200 }
    ensures parses { Parses [] of_field tokens.now (gives Symbol.Field ∷ []) at depth result }
    ensures goes_on { IfOk result (λ p. (at < p.next) × (p.next ≤ length tokens.now)) }
{
    begin(tokens, at, Symbol::Field)?;
    let specs = specifiers(alloc, tokens, at, depth)?;
    let first = declarator(alloc, tokens, specs.next)?;
    let declarators = one(alloc, first.tree)?;
    let all = more_declarators(alloc, tokens, first.next, declarators)?;
    let next = expect(tokens, all.next, TokenKind::Semicolon)?;
    let span = span_of(tokens, at, next);
    Ok(Parsed {
        tree: FieldDecl {
            span,
            specs: specs.tree,
            declarators: all.tree,
        },
        next,
    })
}
