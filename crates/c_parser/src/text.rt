// The tokens one by one: what stands at a place, and which rule it leads to.
ghost use Rattle.std.specs.Prelude.{◌≡◌, ◌+◌, ◌<◌, ◌≤◌, ◌^◌, length, slice_get, IfOk, IfErr, IfSome, Some, None, IsTrue, get_or, List, ℕ, [], ◌∷◌, ◌++◌};
ghost use Rattle.c_grammar.specs.Numbers.{kind_number};
ghost use Rattle.c_grammar.specs.Machine.{gives, accepted, stretch, given, start_of, end_of};
ghost use Rattle.c_grammar.specs.Table.{alternatives_of};
ghost use Rattle.c_parser.specs.Parses.{Expects, Begins, Goes, Fails, Enters, IsOneOf, Finds, is_kind, is_fixed, has_constant, has_one, has_two, row_at};
ghost use Rattle.c_parser.specs.Parts.{a_word, a_number};

use crate::error::ParseError;
use c_grammar::{Symbol, alternatives, kind_number, row};
use c_lexer::{Token, TokenKind, TokenValue};
use pt_base::Span;
use pt_tree::{Constant, Word};
use std::alloc::{AllocError, Global};

/// How many counted symbols may be open.
pub const DEEPEST: u32 = 200;

/// Whether a token of that kind stands there.
#[inline(always)]
pub(crate) fn stands(tokens: &[Token], at: usize, kind: TokenKind) -> bool
    ensures kind { result ≡ is_kind kind (slice_get tokens.now at) }
    ensures within { IsTrue result → at < length tokens.now }
{
    match tokens.get(at) {
        Some(token) => kind_number(kind) == kind_number(token.kind),
        None => false,
    }
}

/// The place after a keyword or punctuator that must stand there.
#[inline(always)]
pub(crate) fn expect(tokens: &[Token], at: usize, kind: TokenKind) -> Result<usize, ParseError>
    requires within { at ≤ length tokens.now }
    requires few { length tokens.now < 2 ^ 32 }
    requires fixed { IsTrue (is_fixed kind) }
    ensures expects { Expects tokens.now kind at result }
    ensures goes_on { IfOk result (λ next. (at < next) × (next ≤ length tokens.now)) }
{
    if stands(tokens, at, kind) {
        Ok(at + 1)
    } else {
        Err(ParseError::FaultAt(at as u32))
    }
}

/// The rule by which the symbol goes on there.
#[inline(always)]
pub(crate) fn rule_at(tokens: &[Token], at: usize, symbol: Symbol) -> Option<u8>
    ensures { result ≡ row_at tokens.now symbol at }
{
    match tokens.get(at) {
        Some(token) => row(symbol, token.kind),
        None => match symbol {
            Symbol::TranslationUnit => Some(2),
            _ => None,
        },
    }
}

#[inline(always)]
fn first_rule(symbol: Symbol) -> u8
    ensures { result ≡ get_or (alternatives_of symbol) 0 0 }
{
    alternatives(symbol).first().copied().unwrap_or(0)
}

/// Goes on by the only rule of the symbol.
#[inline(always)]
pub(crate) fn begin(tokens: &[Token], at: usize, symbol: Symbol) -> Result<(), ParseError>
    requires within { at ≤ length tokens.now }
    requires few { length tokens.now < 2 ^ 32 }
    requires single { IsTrue (has_one (alternatives_of symbol)) }
    ensures { Begins tokens.now symbol at result }
{
    match rule_at(tokens, at, symbol) {
        Some(_) => Ok(()),
        None => Err(ParseError::FaultAt(at as u32)),
    }
}

/// Whether a symbol with two rules goes on by the first.
#[inline(always)]
pub(crate) fn takes_first(tokens: &[Token], at: usize, symbol: Symbol) -> Result<bool, ParseError>
    requires within { at ≤ length tokens.now }
    requires few { length tokens.now < 2 ^ 32 }
    requires double { IsTrue (has_two (alternatives_of symbol)) }
    ensures goes { IfOk result (λ first. Goes tokens.now symbol at first) }
    ensures fails { IfErr result (λ e. (depth : ℕ) → Fails tokens.now (gives symbol ∷ []) at depth [] e) }
{
    match rule_at(tokens, at, symbol) {
        Some(rule) => Ok(rule == first_rule(symbol)),
        None => Err(ParseError::FaultAt(at as u32)),
    }
}

/// The rule by which the symbol goes on.
#[inline(always)]
pub(crate) fn choose(tokens: &[Token], at: usize, symbol: Symbol) -> Result<u8, ParseError>
    requires within { at ≤ length tokens.now }
    requires few { length tokens.now < 2 ^ 32 }
    ensures enters { IfOk result (λ rule. Enters tokens.now symbol at rule) }
    ensures among { IfOk result (λ rule. IsOneOf rule (alternatives_of symbol)) }
    ensures fails { IfErr result (λ e. (depth : ℕ) → Fails tokens.now (gives symbol ∷ []) at depth [] e) }
{
    match rule_at(tokens, at, symbol) {
        Some(rule) => Ok(rule),
        None => Err(ParseError::FaultAt(at as u32)),
    }
}

/// From the token at one place to past the last one before another.
#[inline(always)]
pub(crate) fn span_of(tokens: &[Token], from: usize, next: usize) -> Span
    ensures { result ≡ stretch tokens.now from next }
{
    Span {
        from: start(tokens, from),
        to: end(tokens, next.saturating_sub(1)),
    }
}

#[inline(always)]
fn start(tokens: &[Token], at: usize) -> u32
    ensures { result ≡ start_of (slice_get tokens.now at) }
{
    match tokens.get(at) {
        Some(token) => token.span.from,
        None => 0,
    }
}

#[inline(always)]
fn end(tokens: &[Token], at: usize) -> u32
    ensures { result ≡ end_of (slice_get tokens.now at) }
{
    match tokens.get(at) {
        Some(token) => token.span.to,
        None => 0,
    }
}

/// An identifier that must stand there.
pub(crate) fn identifier(alloc: Global, tokens: &[Token], at: usize) -> Result<Word, ParseError>
    requires within { at ≤ length tokens.now }
    requires few { length tokens.now < 2 ^ 32 }
    ensures word { Finds a_word tokens.now TokenKind.Identifier at result }
    ensures goes_on { IfOk result (λ _. at < length tokens.now) }
{
    let fault = ParseError::FaultAt(at as u32);
    if !stands(tokens, at, TokenKind::Identifier) {
        return Err(fault);
    }
    let token = &tokens[at];
    match &token.value {
        TokenValue::Name(bytes) => match bytes.copy(alloc) {
            Ok(copy) => Ok(Word {
                span: token.span,
                bytes: copy,
            }),
            Err(_) => Err(ParseError::Memory),
        },
        TokenValue::Constant { .. } | TokenValue::Fixed => Err(fault),
    }
}

/// A number or character that must stand there.
pub(crate) fn constant(tokens: &[Token], at: usize, kind: TokenKind) -> Result<Constant, ParseError>
    requires within { at ≤ length tokens.now }
    requires few { length tokens.now < 2 ^ 32 }
    requires valued { IsTrue (has_constant kind) }
    ensures number { Finds a_number tokens.now kind at result }
    ensures goes_on { IfOk result (λ _. at < length tokens.now) }
{
    let missing = ParseError::FaultAt(at as u32);
    if !stands(tokens, at, kind) {
        return Err(missing);
    }
    let token = &tokens[at];
    match &token.value {
        TokenValue::Constant { value, ty } => Ok(Constant {
            span: token.span,
            value: *value,
            ty: *ty,
        }),
        TokenValue::Name(_) | TokenValue::Fixed => Err(missing),
    }
}

/// A list of one.
pub(crate) fn one<T: Drop>(alloc: Global, item: T) -> Result<Vec<T>, AllocError>
    ensures { IfOk result (λ v. v.items ≡ item ∷ []) }
{
    let mut items = Vec::with_capacity(alloc, 1)?;
    items.push(item)?;
    Ok(items)
}

/// Puts one more behind a list that mostly has one, with room for no more at first.
pub(crate) fn push_few<T: Drop>(items: &mut Vec<T>, item: T) -> Result<(), AllocError>
    ensures items { IfOk result (λ _. items.new.items ≡ items.old.items ++ item ∷ []) }
{
    if items.is_empty() {
        items.reserve_exact(1)?;
    }
    items.push(item)?;
    Ok(())
}
