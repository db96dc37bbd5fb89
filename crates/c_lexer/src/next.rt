// What stands at a place of a text: some space or a comment, a token, or a fault.
ghost use Rattle.std.specs.Prelude.{◌≡◌, ℕ, ◌<◌, ◌≤◌, length, slice_index, IfOk, IsTrue};
ghost use Rattle.std.specs.List.{prefix_len};
ghost use Rattle.c_lexer.specs.Bytes.{is_word_byte};
ghost use Rattle.c_lexer.specs.Next.{word_next, number_next, character_next, comment_next, punctuator_next, next_of};

use crate::character::{char_value, character, character_run};
use crate::comment::{close, is_space, line_length, opens_comment};
use crate::error::LexFaultKind;
use crate::number::{begins_number, constant, is_word_byte, number_run};
use crate::spelling::{keyword, punctuator};
use crate::token::{TokenKind, TokenValue};
use pt_base::{Bytes, IntType};
use std::alloc::{AllocError, Global};

/// What the bytes from a place on begin with.
#[derive(Drop)]
pub enum Next {
    /// So many bytes of space or of one comment.
    Blank(usize),
    /// A token of so many bytes.
    Token {
        length: usize,
        kind: TokenKind,
        value: TokenValue,
    },
    /// Nothing.
    Fault(LexFaultKind),
}

/// What the bytes begin with.
#[tactic(auto, unfolding(crate::specs::Next::next_of))]
pub fn begins_with(alloc: Global, rest: &[u8]) -> Result<Next, AllocError>
    requires { 0 < length rest.now }
    ensures { IfOk result (λ n. n ≡ next_of rest.now) }
{
    let first = rest[0];
    if is_space(first) {
        Ok(Next::Blank(1))
    } else if first.is_ascii_alphabetic() || first == b'_' {
        word_next(alloc, rest)
    } else if begins_number(rest) {
        Ok(number_next(rest))
    } else if first == b'\'' {
        Ok(character_next(rest))
    } else if opens_comment(rest) {
        Ok(comment_next(rest))
    } else {
        Ok(punctuator_next(rest))
    }
}

/// How many bytes the word has that begins there.
fn word_run(rest: &[u8]) -> usize
    ensures run { result ≡ prefix_len is_word_byte rest.now }
    ensures within { result ≤ length rest.now }
{
    let mut end = 0;
    while end < rest.len() && is_word_byte(rest[end]) {
        end += 1;
    }
    end
}

fn word_next(alloc: Global, rest: &[u8]) -> Result<Next, AllocError>
    ensures { IfOk result (λ n. n ≡ word_next rest.now) }
{
    let length = word_run(rest);
    let word = &rest[..length];
    match keyword(word) {
        Some(kind) => Ok(Next::Token {
            length,
            kind,
            value: TokenValue::Fixed,
        }),
        None => {
            let name = Bytes::new(word.to_vec(alloc)?);
            Ok(Next::Token {
                length,
                kind: TokenKind::Identifier,
                value: TokenValue::Name(name),
            })
        }
    }
}

fn number_next(rest: &[u8]) -> Next
    requires { 0 < length rest.now }
    ensures { result ≡ number_next rest.now }
{
    let length = number_run(rest);
    match constant(&rest[..length]) {
        Some(value) => Next::Token {
            length,
            kind: TokenKind::Number,
            value,
        },
        None => Next::Fault(LexFaultKind::BadNumber),
    }
}

fn character_next(rest: &[u8]) -> Next
    ensures { result ≡ character_next rest.now }
{
    let Some(length) = character_run(rest) else {
        return Next::Fault(LexFaultKind::BadChar);
    };
    match character(&rest[..length]) {
        Some(byte) => Next::Token {
            length,
            kind: TokenKind::Character,
            value: TokenValue::Constant {
                value: char_value(byte),
                ty: IntType::Int,
            },
        },
        None => Next::Fault(LexFaultKind::BadChar),
    }
}

fn comment_next(rest: &[u8]) -> Next
    requires { 2 ≤ length rest.now }
    ensures { result ≡ comment_next rest.now }
{
    let body = &rest[2..];
    if rest[1] == b'/' {
        return Next::Blank(2 + line_length(body));
    }
    match close(body) {
        Some(length) => Next::Blank(2 + length),
        None => Next::Fault(LexFaultKind::OpenComment),
    }
}

fn punctuator_next(rest: &[u8]) -> Next
    ensures { result ≡ punctuator_next rest.now }
{
    match punctuator(rest) {
        Some((kind, length)) => Next::Token {
            length,
            kind,
            value: TokenValue::Fixed,
        },
        None => Next::Fault(LexFaultKind::BadByte),
    }
}
