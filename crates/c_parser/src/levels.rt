// The levels of the operators with two operands by their places, the tightest first: which of them an
// operand begins, and which end at a token.
ghost use Rattle.std.specs.Prelude.{◌≡◌, ◌+◌, ◌-◌, ◌<◌, ◌≤◌, ◌^◌, length, IfOk, IfErr, ℕ, [], ◌∷◌};
ghost use Rattle.c_grammar.specs.Machine.{gives};
ghost use Rattle.c_parser.specs.Climbing as climbing;
ghost use Rattle.c_parser.specs.Climbing.{Descends, EndsBelow, ended_at};
ghost use Rattle.c_parser.specs.Levels.{symbol_of, number_of};
ghost use Rattle.c_parser.specs.Parses.{Fails};

use crate::error::ParseError;
use crate::operators::Level;
use crate::text::rule_at;
use c_grammar::Symbol;
use c_lexer::{Token, TokenKind};

/// Goes on by the rules of the level and of all that are tighter, to an operand of none.
pub(crate) fn begin_operand(tokens: &[Token], at: usize, level: Level) -> Result<(), ParseError>
    requires within { at ≤ length tokens.now }
    requires few { length tokens.now < 2 ^ 32 }
    ensures enters { IfOk result (λ _. Descends tokens.now level at) }
    ensures fails { IfErr result (λ e. (depth : ℕ) → Fails tokens.now (gives (symbol_of level) ∷ []) at depth [] e) }
{
    match rule_at(tokens, at, Symbol::Multiplicative) {
        Some(_) => Ok(()),
        None => Err(ParseError::FaultAt(at as u32)),
    }
}

/// How many levels there are from the tightest to this one.
pub(crate) fn levels_within(level: Level) -> usize
    ensures { result ≡ 10 - number_of level }
{
    10 - level as usize
}

/// The level at this place.
pub(crate) fn level_at(position: usize) -> Level
    requires { position < 10 }
    ensures level { result ≡ climbing.level_at position }
    ensures rank { number_of result + position ≡ 9 }
{
    match position {
        0 => Level::Multiplicative,
        1 => Level::Additive,
        2 => Level::Shift,
        3 => Level::Relational,
        4 => Level::Equality,
        5 => Level::BitAnd,
        6 => Level::BitXor,
        7 => Level::BitOr,
        8 => Level::LogicalAnd,
        _ => Level::LogicalOr,
    }
}

/// So many levels, from the tightest on, have no more operands at that token.
pub(crate) fn levels_ended(tokens: &[Token], at: usize) -> usize
    ensures { EndsBelow tokens.now at result }
{
    match tokens.get(at) {
        Some(token) => ended_by(token.kind),
        None => 0,
    }
}

fn ended_by(kind: TokenKind) -> usize
    ensures { result ≡ ended_at kind }
{
    match kind {
        TokenKind::Plus | TokenKind::Minus => 1,
        TokenKind::ShiftLeft | TokenKind::ShiftRight => 2,
        TokenKind::Less | TokenKind::Greater | TokenKind::LessEqual | TokenKind::GreaterEqual => 3,
        TokenKind::EqualEqual | TokenKind::BangEqual => 4,
        TokenKind::Amp => 5,
        TokenKind::Caret => 6,
        TokenKind::Pipe => 7,
        TokenKind::AmpAmp => 8,
        TokenKind::PipePipe => 9,
        TokenKind::CloseBracket
        | TokenKind::CloseParen
        | TokenKind::CloseBrace
        | TokenKind::Question
        | TokenKind::Colon
        | TokenKind::Semicolon
        | TokenKind::Equal
        | TokenKind::StarEqual
        | TokenKind::SlashEqual
        | TokenKind::PercentEqual
        | TokenKind::PlusEqual
        | TokenKind::MinusEqual
        | TokenKind::ShiftLeftEqual
        | TokenKind::ShiftRightEqual
        | TokenKind::AmpEqual
        | TokenKind::CaretEqual
        | TokenKind::PipeEqual
        | TokenKind::Comma => 10,
        _ => 0,
    }
}
