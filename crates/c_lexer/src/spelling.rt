// Which keyword a word is, and which punctuator a text begins with.
ghost use Rattle.std.specs.Prelude.{◌≡◌, ℕ, [], ◌∷◌, length};
ghost use Rattle.c_lexer.specs.Spelling.{keyword_of, punctuator_of};
ghost use Rattle.c_lexer.specs.Next.{longest_punctuator, punctuator_at};

use crate::token::TokenKind;

/// The keyword that is spelled so.
pub fn keyword(word: &[u8]) -> Option<TokenKind>
    ensures { result ≡ keyword_of word.now }
{
    match word.len() {
        2 => keyword_of_two(word),
        3 => keyword_of_three(word),
        4 => keyword_of_four(word),
        5 => keyword_of_five(word),
        6 => keyword_of_six(word),
        7 => keyword_of_seven(word),
        8 => keyword_of_eight(word),
        10 => keyword_of_ten(word),
        13 => keyword_of_thirteen(word),
        _ => None,
    }
}

#[tactic(auto, unfolding(crate::specs::Spelling::keyword_of))]
fn keyword_of_two(word: &[u8]) -> Option<TokenKind>
    requires { length word.now ≡ 2 }
    ensures { result ≡ keyword_of word.now }
{
    if word == b"do".as_slice() {
        Some(TokenKind::Do)
    } else if word == b"if".as_slice() {
        Some(TokenKind::If)
    } else {
        None
    }
}

#[tactic(auto, unfolding(crate::specs::Spelling::keyword_of))]
fn keyword_of_three(word: &[u8]) -> Option<TokenKind>
    requires { length word.now ≡ 3 }
    ensures { result ≡ keyword_of word.now }
{
    if word == b"for".as_slice() {
        Some(TokenKind::For)
    } else if word == b"int".as_slice() {
        Some(TokenKind::Int)
    } else {
        None
    }
}

#[tactic(auto, unfolding(crate::specs::Spelling::keyword_of))]
fn keyword_of_four(word: &[u8]) -> Option<TokenKind>
    requires { length word.now ≡ 4 }
    ensures { result ≡ keyword_of word.now }
{
    if word == b"auto".as_slice() {
        Some(TokenKind::Auto)
    } else if word == b"case".as_slice() {
        Some(TokenKind::Case)
    } else if word == b"char".as_slice() {
        Some(TokenKind::Char)
    } else if word == b"else".as_slice() {
        Some(TokenKind::Else)
    } else if word == b"enum".as_slice() {
        Some(TokenKind::Enum)
    } else if word == b"goto".as_slice() {
        Some(TokenKind::Goto)
    } else if word == b"long".as_slice() {
        Some(TokenKind::Long)
    } else if word == b"void".as_slice() {
        Some(TokenKind::Void)
    } else {
        None
    }
}

#[tactic(auto, unfolding(crate::specs::Spelling::keyword_of))]
fn keyword_of_five(word: &[u8]) -> Option<TokenKind>
    requires { length word.now ≡ 5 }
    ensures { result ≡ keyword_of word.now }
{
    if word == b"break".as_slice() {
        Some(TokenKind::Break)
    } else if word == b"const".as_slice() {
        Some(TokenKind::Const)
    } else if word == b"float".as_slice() {
        Some(TokenKind::Float)
    } else if word == b"short".as_slice() {
        Some(TokenKind::Short)
    } else if word == b"union".as_slice() {
        Some(TokenKind::Union)
    } else if word == b"while".as_slice() {
        Some(TokenKind::While)
    } else if word == b"_Bool".as_slice() {
        Some(TokenKind::Bool)
    } else {
        None
    }
}

#[tactic(auto, unfolding(crate::specs::Spelling::keyword_of))]
fn keyword_of_six(word: &[u8]) -> Option<TokenKind>
    requires { length word.now ≡ 6 }
    ensures { result ≡ keyword_of word.now }
{
    if word == b"double".as_slice() {
        Some(TokenKind::Double)
    } else if word == b"extern".as_slice() {
        Some(TokenKind::Extern)
    } else if word == b"inline".as_slice() {
        Some(TokenKind::Inline)
    } else if word == b"return".as_slice() {
        Some(TokenKind::Return)
    } else if word == b"signed".as_slice() {
        Some(TokenKind::Signed)
    } else if word == b"sizeof".as_slice() {
        Some(TokenKind::Sizeof)
    } else if word == b"static".as_slice() {
        Some(TokenKind::Static)
    } else if word == b"struct".as_slice() {
        Some(TokenKind::Struct)
    } else if word == b"switch".as_slice() {
        Some(TokenKind::Switch)
    } else {
        None
    }
}

#[tactic(auto, unfolding(crate::specs::Spelling::keyword_of))]
fn keyword_of_seven(word: &[u8]) -> Option<TokenKind>
    requires { length word.now ≡ 7 }
    ensures { result ≡ keyword_of word.now }
{
    if word == b"default".as_slice() {
        Some(TokenKind::Default)
    } else if word == b"typedef".as_slice() {
        Some(TokenKind::Typedef)
    } else {
        None
    }
}

#[tactic(auto, unfolding(crate::specs::Spelling::keyword_of))]
fn keyword_of_eight(word: &[u8]) -> Option<TokenKind>
    requires { length word.now ≡ 8 }
    ensures { result ≡ keyword_of word.now }
{
    if word == b"continue".as_slice() {
        Some(TokenKind::Continue)
    } else if word == b"register".as_slice() {
        Some(TokenKind::Register)
    } else if word == b"restrict".as_slice() {
        Some(TokenKind::Restrict)
    } else if word == b"unsigned".as_slice() {
        Some(TokenKind::Unsigned)
    } else if word == b"volatile".as_slice() {
        Some(TokenKind::Volatile)
    } else if word == b"_Complex".as_slice() {
        Some(TokenKind::Complex)
    } else {
        None
    }
}

#[tactic(auto, unfolding(crate::specs::Spelling::keyword_of))]
fn keyword_of_ten(word: &[u8]) -> Option<TokenKind>
    requires { length word.now ≡ 10 }
    ensures { result ≡ keyword_of word.now }
{
    if word == b"_Imaginary".as_slice() {
        Some(TokenKind::Imaginary)
    } else {
        None
    }
}

#[tactic(auto, unfolding(crate::specs::Spelling::keyword_of))]
fn keyword_of_thirteen(word: &[u8]) -> Option<TokenKind>
    requires { length word.now ≡ 13 }
    ensures { result ≡ keyword_of word.now }
{
    if word == b"__attribute__".as_slice() {
        Some(TokenKind::Attribute)
    } else {
        None
    }
}

/// The longest punctuator that the bytes begin with, and how many bytes it has.
pub fn punctuator(rest: &[u8]) -> Option<(TokenKind, usize)>
    ensures { result ≡ longest_punctuator rest.now }
{
    punctuator_of_three(rest)
        .or(punctuator_of_two(rest))
        .or(punctuator_of_one(rest))
}

fn punctuator_of_one(rest: &[u8]) -> Option<(TokenKind, usize)>
    ensures { result ≡ punctuator_at 1 rest.now }
{
    match rest {
        [first, ..] => Some((single(*first)?, 1)),
        _ => None,
    }
}

fn punctuator_of_two(rest: &[u8]) -> Option<(TokenKind, usize)>
    ensures { result ≡ punctuator_at 2 rest.now }
{
    match rest {
        [first, second, ..] => Some((double(*first, *second)?, 2)),
        _ => None,
    }
}

fn punctuator_of_three(rest: &[u8]) -> Option<(TokenKind, usize)>
    ensures { result ≡ punctuator_at 3 rest.now }
{
    match rest {
        [first, second, third, ..] => Some((triple(*first, *second, *third)?, 3)),
        _ => None,
    }
}

#[tactic(auto, unfolding(crate::specs::Spelling::punctuator_of))]
fn single(byte: u8) -> Option<TokenKind>
    ensures { result ≡ punctuator_of (byte ∷ []) }
{
    match byte {
        b'[' => Some(TokenKind::OpenBracket),
        b']' => Some(TokenKind::CloseBracket),
        b'(' => Some(TokenKind::OpenParen),
        b')' => Some(TokenKind::CloseParen),
        b'{' => Some(TokenKind::OpenBrace),
        b'}' => Some(TokenKind::CloseBrace),
        b'.' => Some(TokenKind::Dot),
        b'&' => Some(TokenKind::Amp),
        b'*' => Some(TokenKind::Star),
        b'+' => Some(TokenKind::Plus),
        b'-' => Some(TokenKind::Minus),
        b'~' => Some(TokenKind::Tilde),
        b'!' => Some(TokenKind::Bang),
        b'/' => Some(TokenKind::Slash),
        b'%' => Some(TokenKind::Percent),
        b'<' => Some(TokenKind::Less),
        b'>' => Some(TokenKind::Greater),
        b'^' => Some(TokenKind::Caret),
        b'|' => Some(TokenKind::Pipe),
        b'?' => Some(TokenKind::Question),
        b':' => Some(TokenKind::Colon),
        b';' => Some(TokenKind::Semicolon),
        b'=' => Some(TokenKind::Equal),
        b',' => Some(TokenKind::Comma),
        _ => None,
    }
}

#[tactic(auto, unfolding(crate::specs::Spelling::punctuator_of))]
fn double(first: u8, second: u8) -> Option<TokenKind>
    ensures { result ≡ punctuator_of (first ∷ second ∷ []) }
{
    match (first, second) {
        (b'-', b'>') => Some(TokenKind::Arrow),
        (b'+', b'+') => Some(TokenKind::PlusPlus),
        (b'-', b'-') => Some(TokenKind::MinusMinus),
        (b'<', b'<') => Some(TokenKind::ShiftLeft),
        (b'>', b'>') => Some(TokenKind::ShiftRight),
        (b'<', b'=') => Some(TokenKind::LessEqual),
        (b'>', b'=') => Some(TokenKind::GreaterEqual),
        (b'=', b'=') => Some(TokenKind::EqualEqual),
        (b'!', b'=') => Some(TokenKind::BangEqual),
        (b'&', b'&') => Some(TokenKind::AmpAmp),
        (b'|', b'|') => Some(TokenKind::PipePipe),
        (b'*', b'=') => Some(TokenKind::StarEqual),
        (b'/', b'=') => Some(TokenKind::SlashEqual),
        (b'%', b'=') => Some(TokenKind::PercentEqual),
        (b'+', b'=') => Some(TokenKind::PlusEqual),
        (b'-', b'=') => Some(TokenKind::MinusEqual),
        (b'&', b'=') => Some(TokenKind::AmpEqual),
        (b'^', b'=') => Some(TokenKind::CaretEqual),
        (b'|', b'=') => Some(TokenKind::PipeEqual),
        _ => None,
    }
}

#[tactic(auto, unfolding(crate::specs::Spelling::punctuator_of))]
fn triple(first: u8, second: u8, third: u8) -> Option<TokenKind>
    ensures { result ≡ punctuator_of (first ∷ second ∷ third ∷ []) }
{
    match (first, second, third) {
        (b'<', b'<', b'=') => Some(TokenKind::ShiftLeftEqual),
        (b'>', b'>', b'=') => Some(TokenKind::ShiftRightEqual),
        _ => None,
    }
}
