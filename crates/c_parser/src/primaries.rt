// Identifiers and constants as operands.
ghost use Rattle.std.specs.Prelude.{◌≡◌, ◌<◌, ◌≤◌, ◌^◌, length, IfOk, List, ℕ, [], ◌∷◌, IsTrue};
ghost use Rattle.c_grammar.specs.Machine.{takes, gives, builds, wanted};
ghost use Rattle.c_grammar.specs.Builds.{a_constant};
ghost use Rattle.c_parser.specs.OperandNames.{primary_number};
ghost use Rattle.c_parser.specs.Parses.{Parses, has_constant};
ghost use Rattle.c_parser.specs.Parts.{of_expr};

use crate::error::ParseError;
use crate::operand_rule::{PrimaryRule, primary_rule};
use crate::parsed::Parsed;
use crate::text::{constant, identifier};
use c_grammar::Symbol;
use c_lexer::{Token, TokenKind};
use pt_tree::Expr;
use std::alloc::Global;

/// An identifier or a constant.
pub(crate) fn primary(
    alloc: Global,
    tokens: &[Token],
    at: usize,
) -> Result<Parsed<Expr>, ParseError>
    requires within { at ≤ length tokens.now }
    requires few { length tokens.now < 2 ^ 32 }
    ensures parses { (depth : ℕ) → Parses [] of_expr tokens.now (gives Symbol.Primary ∷ []) at depth result }
    ensures goes_on { IfOk result (λ p. (at < p.next) × (p.next ≤ length tokens.now)) }
{
    let rule = primary_rule(tokens, at)?;
    match rule {
        PrimaryRule::Name => name(alloc, tokens, at),
        PrimaryRule::Number => literal(tokens, at, TokenKind::Number),
        PrimaryRule::Character => literal(tokens, at, TokenKind::Character),
    }
}

fn name(alloc: Global, tokens: &[Token], at: usize) -> Result<Parsed<Expr>, ParseError>
    requires within { at ≤ length tokens.now }
    requires few { length tokens.now < 2 ^ 32 }
    ensures parses { (depth : ℕ) → Parses [] of_expr tokens.now (wanted at (primary_number PrimaryRule.Name)) at depth result }
    ensures goes_on { IfOk result (λ p. (at < p.next) × (p.next ≤ length tokens.now)) }
{
    let word = identifier(alloc, tokens, at)?;
    Ok(Parsed {
        tree: Expr::Name(word),
        next: at + 1,
    })
}

fn literal(tokens: &[Token], at: usize, kind: TokenKind) -> Result<Parsed<Expr>, ParseError>
    requires within { at ≤ length tokens.now }
    requires few { length tokens.now < 2 ^ 32 }
    requires valued { IsTrue (has_constant kind) }
    ensures parses { (depth : ℕ) → Parses [] of_expr tokens.now (takes kind ∷ builds at a_constant ∷ []) at depth result }
    ensures goes_on { IfOk result (λ p. (at < p.next) × (p.next ≤ length tokens.now)) }
{
    let value = constant(tokens, at, kind)?;
    Ok(Parsed {
        tree: Expr::Constant(value),
        next: at + 1,
    })
}
