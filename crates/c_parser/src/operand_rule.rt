// The rules of operands and of what stands behind them by their names.
ghost use Rattle.std.specs.Prelude.{◌≡◌, ◌<◌, ◌≤◌, ◌^◌, length, IfOk, IfErr, ℕ, [], ◌∷◌};
ghost use Rattle.c_grammar.specs.Machine.{gives};
ghost use Rattle.c_grammar.specs.Table.{alternatives_of};
ghost use Rattle.c_parser.specs.Parses.{Enters, Fails, IsOneOf};
ghost use Rattle.c_parser.specs.OperandNames.{unary_number, postfix_number, primary_number};

use crate::error::ParseError;
use crate::text::choose;
use c_grammar::Symbol;
use c_lexer::Token;

/// A rule of an operand.
#[derive(Clone, Copy)]
pub(crate) enum UnaryRule {
    Parenthesised,
    Prefixed,
    Increment,
    Decrement,
    Postfixed,
}

/// The rule by which an operand goes on there.
pub(crate) fn unary_rule(tokens: &[Token], at: usize) -> Result<UnaryRule, ParseError>
    requires within { at ≤ length tokens.now }
    requires few { length tokens.now < 2 ^ 32 }
    ensures enters { IfOk result (λ rule. Enters tokens.now Symbol.Unary at (unary_number rule)) }
    ensures fails { IfErr result (λ e. (depth : ℕ) → Fails tokens.now (gives Symbol.Unary ∷ []) at depth [] e) }
{
    match choose(tokens, at, Symbol::Unary) {
        Ok(number) => Ok(unary_named(number)),
        Err(e) => Err(e),
    }
}

fn unary_named(number: u8) -> UnaryRule
    requires { IsOneOf number (alternatives_of Symbol.Unary) }
    ensures { unary_number result ≡ number }
{
    match number {
        93 => UnaryRule::Parenthesised,
        94 => UnaryRule::Prefixed,
        95 => UnaryRule::Increment,
        96 => UnaryRule::Decrement,
        _ => UnaryRule::Postfixed,
    }
}

/// A rule of what stands behind an operand.
#[derive(Clone, Copy)]
pub(crate) enum PostfixRule {
    Index,
    Call,
    Dot,
    Arrow,
    Increment,
    Decrement,
    End,
}

/// The rule by which what stands behind an operand goes on there.
pub(crate) fn postfix_rule(tokens: &[Token], at: usize) -> Result<PostfixRule, ParseError>
    requires within { at ≤ length tokens.now }
    requires few { length tokens.now < 2 ^ 32 }
    ensures enters { IfOk result (λ rule. Enters tokens.now Symbol.Postfixes at (postfix_number rule)) }
    ensures fails { IfErr result (λ e. (depth : ℕ) → Fails tokens.now (gives Symbol.Postfixes ∷ []) at depth [] e) }
{
    match choose(tokens, at, Symbol::Postfixes) {
        Ok(number) => Ok(postfixes_named(number)),
        Err(e) => Err(e),
    }
}

fn postfixes_named(number: u8) -> PostfixRule
    requires { IsOneOf number (alternatives_of Symbol.Postfixes) }
    ensures { postfix_number result ≡ number }
{
    match number {
        100 => PostfixRule::Index,
        101 => PostfixRule::Call,
        102 => PostfixRule::Dot,
        103 => PostfixRule::Arrow,
        104 => PostfixRule::Increment,
        105 => PostfixRule::Decrement,
        _ => PostfixRule::End,
    }
}

/// A rule of an identifier or a constant.
#[derive(Clone, Copy)]
pub(crate) enum PrimaryRule {
    Name,
    Number,
    Character,
}

/// The rule by which an identifier or a constant goes on there.
pub(crate) fn primary_rule(tokens: &[Token], at: usize) -> Result<PrimaryRule, ParseError>
    requires within { at ≤ length tokens.now }
    requires few { length tokens.now < 2 ^ 32 }
    ensures enters { IfOk result (λ rule. Enters tokens.now Symbol.Primary at (primary_number rule)) }
    ensures fails { IfErr result (λ e. (depth : ℕ) → Fails tokens.now (gives Symbol.Primary ∷ []) at depth [] e) }
{
    match choose(tokens, at, Symbol::Primary) {
        Ok(number) => Ok(primary_named(number)),
        Err(e) => Err(e),
    }
}

fn primary_named(number: u8) -> PrimaryRule
    requires { IsOneOf number (alternatives_of Symbol.Primary) }
    ensures { primary_number result ≡ number }
{
    match number {
        111 => PrimaryRule::Name,
        112 => PrimaryRule::Number,
        _ => PrimaryRule::Character,
    }
}
