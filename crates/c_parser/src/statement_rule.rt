// The rules of statements by their names.
ghost use Rattle.std.specs.Prelude.{◌≡◌, ◌<◌, ◌≤◌, ◌^◌, length, IfOk, IfErr, ℕ, [], ◌∷◌};
ghost use Rattle.c_grammar.specs.Machine.{gives};
ghost use Rattle.c_grammar.specs.Table.{alternatives_of};
ghost use Rattle.c_parser.specs.Parses.{Enters, Fails, IsOneOf};
ghost use Rattle.c_parser.specs.RuleNames.{statement_number};

use crate::error::ParseError;
use crate::text::choose;
use c_grammar::Symbol;
use c_lexer::Token;

/// A rule of a statement.
#[derive(Clone, Copy)]
pub(crate) enum StatementRule {
    Block,
    Empty,
    Expression,
    If,
    While,
    Do,
    For,
    Return,
    Break,
    Continue,
    Switch,
}

/// The rule by which a statement goes on there.
pub(crate) fn statement_rule(tokens: &[Token], at: usize) -> Result<StatementRule, ParseError>
    requires within { at ≤ length tokens.now }
    requires few { length tokens.now < 2 ^ 32 }
    ensures enters { IfOk result (λ rule. Enters tokens.now Symbol.Statement at (statement_number rule)) }
    ensures fails { IfErr result (λ e. (depth : ℕ) → Fails tokens.now (gives Symbol.Statement ∷ []) at depth [] e) }
{
    match choose(tokens, at, Symbol::Statement) {
        Ok(number) => Ok(named(number)),
        Err(e) => Err(e),
    }
}

fn named(number: u8) -> StatementRule
    requires { IsOneOf number (alternatives_of Symbol.Statement) }
    ensures { statement_number result ≡ number }
{
    match number {
        68 => StatementRule::Block,
        69 => StatementRule::Empty,
        70 => StatementRule::Expression,
        71 => StatementRule::If,
        72 => StatementRule::While,
        73 => StatementRule::Do,
        74 => StatementRule::For,
        75 => StatementRule::Return,
        76 => StatementRule::Break,
        77 => StatementRule::Continue,
        _ => StatementRule::Switch,
    }
}
