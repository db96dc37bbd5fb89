// Texts and their tokens.
use anyhow::{Result, bail};
use c_lexer::{LexError, Token, TokenKind, TokenValue, lex};
use case_rows::{int_name, push_bytes, repeats, spelled};
use std::alloc::{AllocError, Global};

/// The row with the tokens of its text, one a line, or with its fault.
///
/// # Errors
///
/// A row that spells no text, and want of memory.
pub fn told(alloc: Global, row: &str) -> Result<String> {
    let text = spelled(alloc, row)?;
    let mut told = format!(in alloc; "lex {row}")?;
    match lex(alloc, text.as_bytes()) {
        Ok(tokens) if repeats(row) => write!(told, " => {} tokens", tokens.len())?,
        Ok(tokens) => {
            for token in &tokens {
                push_token(&mut told, text.as_bytes(), token)?;
            }
        }
        Err(LexError::Fault(fault)) => {
            let (number, name) = (fault.kind.number(), fault.kind.name());
            write!(told, " => lex {number} {name} {}", fault.at)?;
        }
        Err(LexError::Memory) => bail!("out of memory"),
    }
    Ok(told)
}

// A line with a token: its place, its spelling, and what it carries, which a keyword or a punctuator
// doesn't.
fn push_token(told: &mut String, text: &[u8], token: &Token) -> Result<(), AllocError> {
    let (from, to) = (token.span.from, token.span.to);
    write!(told, "\n  {from}..{to} ")?;
    if let Some(spelling) = text.get(from as usize..to as usize) {
        push_bytes(told, spelling)?;
    }
    match &token.value {
        TokenValue::Name(name) => {
            told.push_str(" name ")?;
            push_bytes(told, name.as_slice())
        }
        TokenValue::Constant { value, ty } => {
            let is_number = token.kind.is(TokenKind::Number);
            let kind = if is_number { "number" } else { "character" };
            write!(told, " {kind} {value} {}", int_name(*ty))
        }
        TokenValue::Fixed => Ok(()),
    }
}

/// The bytes with which no token begins, in runs.
///
/// # Errors
///
/// Want of memory.
pub fn strange_bytes(alloc: Global) -> Result<String> {
    let mut told = String::from_str(alloc, "bytes => BadByte")?;
    let mut begins: Option<u8> = None;
    for byte in 0..=255u8 {
        let is_strange = is_strange(alloc, byte)?;
        match begins {
            None if is_strange => begins = Some(byte),
            Some(first) if !is_strange => {
                write!(told, " {first}-{}", byte.saturating_sub(1))?;
                begins = None;
            }
            _ => {}
        }
    }
    if let Some(first) = begins {
        write!(told, " {first}-255")?;
    }
    Ok(told)
}

// Whether the byte alone is a BadByte.
fn is_strange(alloc: Global, byte: u8) -> Result<bool> {
    match lex(alloc, &[byte]) {
        Ok(_) => Ok(false),
        Err(LexError::Fault(fault)) => Ok(fault.kind.name() == "BadByte" && fault.at == 0),
        Err(LexError::Memory) => bail!("out of memory"),
    }
}
