// Operators: which one a token is, and how tightly it binds.
ghost use Rattle.std.specs.Prelude.{◌≡◌, ◌+◌, ◌<◌, ◌≤◌, ◌^◌, ◌++◌, length, IfOk, Some, None, List, ℕ, [], ◌∷◌, IsTrue, true, false};
ghost use Rattle.c_grammar.specs.Machine.{takes, gives, opens, builds, wanted};
ghost use Rattle.std.specs.Prelude.{IfSome, IfErr};
ghost use Rattle.c_grammar.specs.Builds.{assigning, operator, no_links, chain_of};
ghost use Rattle.c_parser.specs.Levels.{tail_of, tighter_of, tighter_symbol, number_of, kind_of, operator_at, EntersLink};
ghost use Rattle.c_parser.specs.Parses.{Parses, Fails, is_fixed};
ghost use Rattle.c_parser.specs.Parts.{of_assign_op, of_prefix_op};

use crate::error::ParseError;
use crate::parsed::Parsed;
use crate::text::{choose, expect};
use c_grammar::Symbol;
use c_lexer::{Token, TokenKind};
use pt_tree::{BinaryOp, PrefixOp};

/// The levels of the operators with two operands, loosest first. Each groups to the left.
#[derive(Clone, Copy, Debug, PartialEq, Eq)]
pub(crate) enum Level {
    LogicalOr,
    LogicalAnd,
    BitOr,
    BitXor,
    BitAnd,
    Equality,
    Relational,
    Shift,
    Additive,
    Multiplicative,
}

fn tail(level: Level) -> Symbol
    ensures { result ≡ tail_of level }
{
    match level {
        Level::LogicalOr => Symbol::LogicalOrTail,
        Level::LogicalAnd => Symbol::LogicalAndTail,
        Level::BitOr => Symbol::BitOrTail,
        Level::BitXor => Symbol::BitXorTail,
        Level::BitAnd => Symbol::BitAndTail,
        Level::Equality => Symbol::EqualityTail,
        Level::Relational => Symbol::RelationalTail,
        Level::Shift => Symbol::ShiftTail,
        Level::Additive => Symbol::AdditiveTail,
        Level::Multiplicative => Symbol::MultiplicativeTail,
    }
}

/// The next tighter level; none where the operands are those of no level.
pub(crate) fn tighter(level: Level) -> Option<Level>
    ensures symbol { tighter_symbol result ≡ tighter_of level }
    ensures rank { IfSome result (λ next. (number_of level < number_of next) × (number_of next < 10)) }
{
    match level {
        Level::LogicalOr => Some(Level::LogicalAnd),
        Level::LogicalAnd => Some(Level::BitOr),
        Level::BitOr => Some(Level::BitXor),
        Level::BitXor => Some(Level::BitAnd),
        Level::BitAnd => Some(Level::Equality),
        Level::Equality => Some(Level::Relational),
        Level::Relational => Some(Level::Shift),
        Level::Shift => Some(Level::Additive),
        Level::Additive => Some(Level::Multiplicative),
        Level::Multiplicative => None,
    }
}

/// The operator of the level that goes on there; none where the operands end.
pub(crate) fn link_operator(
    tokens: &[Token],
    at: usize,
    level: Level,
) -> Result<Option<BinaryOp>, ParseError>
    requires within { at ≤ length tokens.now }
    requires few { length tokens.now < 2 ^ 32 }
    ensures enters { IfOk result (λ op. EntersLink tokens.now level at op) }
    ensures fails { IfErr result (λ e. (depth : ℕ) → Fails tokens.now (gives (tail_of level) ∷ []) at depth [] e) }
{
    let rule = choose(tokens, at, tail(level))?;
    Ok(operator_by(rule))
}

fn operator_by(rule: u8) -> Option<BinaryOp>
    ensures { result ≡ operator_at rule }
{
    match rule {
        132 => Some(BinaryOp::LogicalOr),
        135 => Some(BinaryOp::LogicalAnd),
        138 => Some(BinaryOp::BitOr),
        141 => Some(BinaryOp::BitXor),
        144 => Some(BinaryOp::BitAnd),
        147 => Some(BinaryOp::Equal),
        148 => Some(BinaryOp::NotEqual),
        151 => Some(BinaryOp::Less),
        152 => Some(BinaryOp::Greater),
        153 => Some(BinaryOp::LessEqual),
        154 => Some(BinaryOp::GreaterEqual),
        157 => Some(BinaryOp::ShiftLeft),
        158 => Some(BinaryOp::ShiftRight),
        161 => Some(BinaryOp::Add),
        162 => Some(BinaryOp::Subtract),
        165 => Some(BinaryOp::Multiply),
        166 => Some(BinaryOp::Divide),
        167 => Some(BinaryOp::Remainder),
        _ => None,
    }
}

/// The token of the operator.
pub(crate) fn kind_by(op: BinaryOp) -> TokenKind
    ensures kind { result ≡ kind_of op }
    ensures fixed { IsTrue (is_fixed result) }
{
    match op {
        BinaryOp::LogicalOr => TokenKind::PipePipe,
        BinaryOp::LogicalAnd => TokenKind::AmpAmp,
        BinaryOp::BitOr => TokenKind::Pipe,
        BinaryOp::BitXor => TokenKind::Caret,
        BinaryOp::BitAnd => TokenKind::Amp,
        BinaryOp::Equal => TokenKind::EqualEqual,
        BinaryOp::NotEqual => TokenKind::BangEqual,
        BinaryOp::Less => TokenKind::Less,
        BinaryOp::Greater => TokenKind::Greater,
        BinaryOp::LessEqual => TokenKind::LessEqual,
        BinaryOp::GreaterEqual => TokenKind::GreaterEqual,
        BinaryOp::ShiftLeft => TokenKind::ShiftLeft,
        BinaryOp::ShiftRight => TokenKind::ShiftRight,
        BinaryOp::Add => TokenKind::Plus,
        BinaryOp::Subtract => TokenKind::Minus,
        BinaryOp::Multiply => TokenKind::Star,
        BinaryOp::Divide => TokenKind::Slash,
        BinaryOp::Remainder => TokenKind::Percent,
    }
}

/// The operator of an assignment; none for `=`.
pub(crate) fn assignment_operator(
    tokens: &[Token],
    at: usize,
) -> Result<Parsed<Option<BinaryOp>>, ParseError>
    requires within { at ≤ length tokens.now }
    requires few { length tokens.now < 2 ^ 32 }
    ensures parses { (depth : ℕ) → Parses [] of_assign_op tokens.now (gives Symbol.AssignOp ∷ []) at depth result }
    ensures goes_on { IfOk result (λ p. (at < p.next) × (p.next ≤ length tokens.now)) }
{
    let rule = choose(tokens, at, Symbol::AssignOp)?;
    match rule {
        114 => assigning_by(tokens, at, TokenKind::Equal, None),
        115 => assigning_by(tokens, at, TokenKind::StarEqual, Some(BinaryOp::Multiply)),
        116 => assigning_by(tokens, at, TokenKind::SlashEqual, Some(BinaryOp::Divide)),
        117 => assigning_by(
            tokens,
            at,
            TokenKind::PercentEqual,
            Some(BinaryOp::Remainder),
        ),
        118 => assigning_by(tokens, at, TokenKind::PlusEqual, Some(BinaryOp::Add)),
        119 => assigning_by(tokens, at, TokenKind::MinusEqual, Some(BinaryOp::Subtract)),
        120 => assigning_by(
            tokens,
            at,
            TokenKind::ShiftLeftEqual,
            Some(BinaryOp::ShiftLeft),
        ),
        121 => assigning_by(
            tokens,
            at,
            TokenKind::ShiftRightEqual,
            Some(BinaryOp::ShiftRight),
        ),
        122 => assigning_by(tokens, at, TokenKind::AmpEqual, Some(BinaryOp::BitAnd)),
        123 => assigning_by(tokens, at, TokenKind::CaretEqual, Some(BinaryOp::BitXor)),
        _ => assigning_by(tokens, at, TokenKind::PipeEqual, Some(BinaryOp::BitOr)),
    }
}

fn assigning_by(
    tokens: &[Token],
    at: usize,
    kind: TokenKind,
    op: Option<BinaryOp>,
) -> Result<Parsed<Option<BinaryOp>>, ParseError>
    requires within { at ≤ length tokens.now }
    requires few { length tokens.now < 2 ^ 32 }
    requires fixed { IsTrue (is_fixed kind) }
    ensures parses { (depth : ℕ) → Parses [] of_assign_op tokens.now (takes kind ∷ builds at (assigning op) ∷ []) at depth result }
    ensures goes_on { IfOk result (λ p. (at < p.next) × (p.next ≤ length tokens.now)) }
{
    let next = expect(tokens, at, kind)?;
    Ok(Parsed { tree: op, next })
}

/// An operator before its operand, other than `++` and `--`.
pub(crate) fn prefix_operator(tokens: &[Token], at: usize) -> Result<Parsed<PrefixOp>, ParseError>
    requires within { at ≤ length tokens.now }
    requires few { length tokens.now < 2 ^ 32 }
    ensures parses { (depth : ℕ) → Parses [] of_prefix_op tokens.now (gives Symbol.UnaryOp ∷ []) at depth result }
    ensures goes_on { IfOk result (λ p. (at < p.next) × (p.next ≤ length tokens.now)) }
{
    let rule = choose(tokens, at, Symbol::UnaryOp)?;
    match rule {
        125 => prefixing_by(tokens, at, TokenKind::Amp, PrefixOp::AddressOf),
        126 => prefixing_by(tokens, at, TokenKind::Star, PrefixOp::Dereference),
        127 => prefixing_by(tokens, at, TokenKind::Plus, PrefixOp::Plus),
        128 => prefixing_by(tokens, at, TokenKind::Minus, PrefixOp::Minus),
        129 => prefixing_by(tokens, at, TokenKind::Tilde, PrefixOp::Complement),
        _ => prefixing_by(tokens, at, TokenKind::Bang, PrefixOp::Not),
    }
}

fn prefixing_by(
    tokens: &[Token],
    at: usize,
    kind: TokenKind,
    op: PrefixOp,
) -> Result<Parsed<PrefixOp>, ParseError>
    requires within { at ≤ length tokens.now }
    requires few { length tokens.now < 2 ^ 32 }
    requires fixed { IsTrue (is_fixed kind) }
    ensures parses { (depth : ℕ) → Parses [] of_prefix_op tokens.now (takes kind ∷ builds at (operator op) ∷ []) at depth result }
    ensures goes_on { IfOk result (λ p. (at < p.next) × (p.next ≤ length tokens.now)) }
{
    let next = expect(tokens, at, kind)?;
    Ok(Parsed { tree: op, next })
}
