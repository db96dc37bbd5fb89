// Character constants: how far one goes, and the byte that it spells.
ghost use Rattle.std.specs.Prelude.{◌≡◌, ◌==◌, ℕ, ◌<◌, ◌≤◌, length, pos, IfSome};
ghost use Rattle.c_lexer.specs.Characters.{plain_byte, simple_escape, byte_in, escaped_byte, byte_of, char_value, character_of};
ghost use Rattle.std.specs.List.{position};
ghost use Rattle.c_lexer.specs.Next.{character_run, first_close};

use crate::number::{digit_count, number_in};

/// Where the character constant ends that begins there, if it is one: past the first quote that can
/// close it.
pub fn character_run(rest: &[u8]) -> Option<usize>
    ensures run { result ≡ character_run rest.now }
    ensures within { IfSome result (λ n. n ≤ length rest.now) }
{
    let start = first_close(rest);
    if rest.len() < start {
        return None;
    }
    let quote = first_quote(&rest[start..])?;
    Some(start + quote + 1)
}

/// The first place of a quote that can close the constant: behind one byte, or behind a backslash
/// and one byte.
fn first_close(rest: &[u8]) -> usize
    ensures { result ≡ first_close rest.now }
{
    match rest {
        [_, b'\\', ..] => 3,
        _ => 2,
    }
}

fn first_quote(bytes: &[u8]) -> Option<usize>
    ensures quote { result ≡ position (λ b. b == 39) bytes.now }
    ensures within { IfSome result (λ n. n < length bytes.now) }
{
    bytes.iter().position(|byte| *byte == b'\'')
}

fn plain_byte(byte: u8) -> Option<u8>
    ensures { result ≡ plain_byte byte }
{
    match byte {
        b'\'' | b'\\' => None,
        b' '..=b'~' => Some(byte),
        _ => None,
    }
}

fn simple_escape(letter: u8) -> Option<u8>
    ensures { result ≡ simple_escape letter }
{
    match letter {
        b'\'' | b'"' | b'?' | b'\\' => Some(letter),
        b'a' => Some(7),
        b'b' => Some(8),
        b'f' => Some(12),
        b'n' => Some(10),
        b'r' => Some(13),
        b't' => Some(9),
        b'v' => Some(11),
        _ => None,
    }
}

/// The byte that the digits spell, all of them in the base.
#[tactic(auto, using(crate::proofs::NumberLemmas::list_all_by_count))]
fn byte_in(base: u8, digits: &[u8]) -> Option<u8>
    requires { 0 < base }
    ensures { result ≡ byte_in base digits.now }
{
    if digits.is_empty() || digit_count(base, digits) < digits.len() {
        return None;
    }
    u8::try_from(number_in(base, digits)?).ok()
}

/// The byte that stands behind a backslash.
fn escaped_byte(escape: &[u8]) -> Option<u8>
    ensures { result ≡ escaped_byte escape.now }
{
    match escape {
        [b'x', digits @ ..] => byte_in(16, digits),
        [b'0'..=b'7', ..] if escape.len() <= 3 => byte_in(8, escape),
        [b'0'..=b'7', ..] => None,
        [letter] => simple_escape(*letter),
        _ => None,
    }
}

/// The byte that is spelled between the quotes.
fn byte_of(spelled: &[u8]) -> Option<u8>
    ensures { result ≡ byte_of spelled.now }
{
    match spelled {
        [byte] => plain_byte(*byte),
        [b'\\', escape @ ..] => escaped_byte(escape),
        _ => None,
    }
}

/// The byte that a character constant spells.
#[tactic(auto, unfolding(crate::specs::Characters::character_of))]
pub fn character(word: &[u8]) -> Option<u8>
    ensures { result ≡ character_of word.now }
{
    match word {
        [b'\'', spelled @ .., b'\''] => byte_of(spelled),
        _ => None,
    }
}

/// The `int` that a byte stands for: its value as a `char`.
pub fn char_value(byte: u8) -> i128
    ensures { result ≡ char_value byte }
{
    if byte < 128 {
        i128::from(byte)
    } else {
        i128::from(byte) - 256
    }
}
