// Numbers: how far one goes, and the value and type of a constant.
ghost use Rattle.std.specs.Prelude.{◌≡◌, ℕ, ◌+◌, ◌*◌, ◌<◌, ◌≤◌, ◌^◌, ◌==◌, nat_lt, if◌then◌else◌, length, pos, IfSome, IsNone};
ghost use Rattle.std.specs.Char.{digit_value, is_digit};
ghost use Rattle.std.specs.List.{prefix_len};
ghost use Rattle.c_lexer.specs.Bytes.{is_word_byte, number_in};
ghost use Rattle.c_lexer.specs.Numbers.{begins_number, continues, suffix_of, types_of, type_for, value_bits, constant_in, constant_of};
ghost use Rattle.c_lexer.specs.Next.{number_run};

use crate::token::TokenValue;
use pt_base::IntType;

/// What stands behind the digits of a constant.
#[derive(Clone, Copy, Debug, PartialEq, Eq)]
pub enum Suffix {
    /// Nothing.
    Plain,
    /// `u`
    Unsigned,
    /// `l`
    Long,
    /// `ul` or `lu`
    UnsignedLong,
}

/// Whether the byte is a letter, `_` or a digit.
pub fn is_word_byte(byte: u8) -> bool
    ensures { result ≡ is_word_byte byte }
{
    byte.is_ascii_alphanumeric() || byte == b'_'
}

/// Whether a number begins there: with a digit, or with a point and a digit.
pub fn begins_number(rest: &[u8]) -> bool
    ensures { result ≡ begins_number rest.now }
{
    match rest {
        [b'.', second, ..] => second.is_ascii_digit(),
        [first, ..] => first.is_ascii_digit(),
        [] => false,
    }
}

fn continues(before: u8, byte: u8) -> bool
    ensures { result ≡ continues before byte }
{
    is_word_byte(byte)
        || byte == b'.'
        || (matches!(byte, b'+' | b'-') && matches!(before.to_ascii_lowercase(), b'e' | b'p'))
}

/// How many bytes the number has that begins there.
pub fn number_run(rest: &[u8]) -> usize
    requires { 0 < length rest.now }
    ensures run { result ≡ number_run rest.now }
    ensures within { result ≤ length rest.now }
{
    let mut before = rest[0];
    let mut end = 1;
    while end < rest.len() && continues(before, rest[end]) {
        before = rest[end];
        end += 1;
    }
    end
}

/// The value of a digit or letter as a digit, and 36 of any other byte.
fn digit_value(byte: u8) -> u8
    ensures value { result ≡ digit_value byte }
    ensures range { result ≤ 36 }
{
    match byte {
        b'0'..=b'9' => byte - b'0',
        b'A'..=b'Z' => byte - b'A' + 10,
        b'a'..=b'z' => byte - b'a' + 10,
        _ => 36,
    }
}

/// How many digits of the base stand at the front.
pub fn digit_count(base: u8, bytes: &[u8]) -> usize
    ensures count { result ≡ prefix_len (λ b. is_digit b base) bytes.now }
    ensures within { result ≤ length bytes.now }
{
    let mut count = 0;
    while count < bytes.len() && digit_value(bytes[count]) < base {
        count += 1;
    }
    count
}

/// The number that the digits spell, where it has at most 64 bits.
pub fn number_in(base: u8, digits: &[u8]) -> Option<u64>
    requires { 0 < base }
    ensures { result ≡ if nat_lt (number_in base digits.now) (2 ^ 64) then Some (number_in base digits.now) else None }
{
    let mut number: u64 = 0;
    for digit in digits {
        number = number
            .checked_mul(u64::from(base))?
            .checked_add(u64::from(digit_value(*digit)))?;
    }
    Some(number)
}

fn suffix_of(bytes: &[u8]) -> Option<Suffix>
    ensures { result ≡ suffix_of bytes.now }
{
    match bytes {
        [] => Some(Suffix::Plain),
        [letter] => match letter.to_ascii_lowercase() {
            b'u' => Some(Suffix::Unsigned),
            b'l' => Some(Suffix::Long),
            _ => None,
        },
        [first, second] => match (first.to_ascii_lowercase(), second.to_ascii_lowercase()) {
            (b'u', b'l') | (b'l', b'u') => Some(Suffix::UnsignedLong),
            _ => None,
        },
        _ => None,
    }
}

/// The type of a constant: the first of its list that represents the value.
fn type_for(base: u8, suffix: Suffix, value: u64) -> Option<IntType>
    ensures { result ≡ type_for value (types_of base suffix) }
{
    let decimal = base == 10;
    let signed = matches!(suffix, Suffix::Plain | Suffix::Long);
    let long = matches!(suffix, Suffix::Long | Suffix::UnsignedLong);
    if signed && !long && value < 1 << 31 {
        Some(IntType::Int)
    } else if (!signed || !decimal) && !long && value < 1 << 32 {
        Some(IntType::UInt)
    } else if signed && value < 1 << 63 {
        Some(IntType::Long)
    } else if !signed || !decimal {
        Some(IntType::ULong)
    } else {
        None
    }
}

fn constant_in(base: u8, bytes: &[u8]) -> Option<TokenValue>
    requires { 0 < base }
    ensures { result ≡ constant_in base bytes.now }
{
    let count = digit_count(base, bytes);
    if count == 0 {
        return None;
    }
    let suffix = suffix_of(&bytes[count..])?;
    let value = number_in(base, &bytes[..count])?;
    let ty = type_for(base, suffix, value)?;
    Some(TokenValue::Constant {
        value: i128::from(value),
        ty,
    })
}

/// The value and type of an integer constant. None where the number is no constant, or where no
/// type of its list represents its value.
#[tactic(auto, unfolding(crate::specs::Numbers::constant_of))]
pub fn constant(word: &[u8]) -> Option<TokenValue>
    ensures { result ≡ constant_of word.now }
{
    match word {
        [b'0', b'x' | b'X', digits @ ..] => constant_in(16, digits),
        [b'0', ..] => constant_in(8, word),
        _ => constant_in(10, word),
    }
}
