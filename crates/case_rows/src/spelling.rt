// The texts that rows spell, and texts in lines.
use anyhow::{Context, Result, bail};
use std::alloc::{AllocError, Global};

/// Where the symbols for the control characters begin.
const SYMBOLS: u32 = 0x2400;

/// The text that a row spells. `␀` to `␟` stand for the control characters, and `⟨N×PIECE⟩` for N
/// times the piece, where `№` is the number of the time, from 0, and `№₊` the next number.
///
/// # Errors
///
/// Brackets that aren't such, and want of memory.
pub fn spelled(alloc: Global, row: &str) -> Result<String> {
    let mut text = String::new(alloc);
    for (place, part) in row.split("⟨").enumerate() {
        if place == 0 {
            push_plain(&mut text, part)?;
            continue;
        }
        let (piece, after) = part.split_once("⟩").context("no end of the piece")?;
        let Some((times, piece)) = piece.split_once("×") else {
            bail!("no number of times");
        };
        for time in 0..times.parse::<u32>()? {
            push_piece(&mut text, piece, time)?;
        }
        push_plain(&mut text, after)?;
    }
    Ok(text)
}

/// Whether a row repeats a piece: its text is then too long to be shown.
pub fn repeats(row: &str) -> bool {
    row.contains("⟨")
}

fn push_piece(text: &mut String, piece: &str, time: u32) -> Result<(), AllocError> {
    for (place, part) in piece.split("№").enumerate() {
        let (number, rest) = match part.strip_prefix("₊") {
            Some(rest) => (time.saturating_add(1), rest),
            None => (time, part),
        };
        if place > 0 {
            write!(text, "{number}")?;
        }
        push_plain(text, rest)?;
    }
    Ok(())
}

fn push_plain(text: &mut String, part: &str) -> Result<(), AllocError> {
    for character in part.chars() {
        text.push(meant(character))?;
    }
    Ok(())
}

// The control character that a symbol stands for; any other stands for itself.
fn meant(character: char) -> char {
    match u32::from(character).checked_sub(SYMBOLS) {
        Some(control) if control < 32 => char::from(control as u8),
        _ => character,
    }
}

/// Appends a byte of a text as a row spells it.
///
/// # Errors
///
/// Want of memory.
pub fn push_shown(text: &mut String, byte: u8) -> Result<(), AllocError> {
    match byte {
        0..=31 => match char::from_u32(SYMBOLS + u32::from(byte)) {
            Some(symbol) => text.push(symbol),
            None => Ok(()),
        },
        32..=126 => text.push(char::from(byte)),
        _ => write!(text, "\\x{byte:02x}"),
    }
}

/// Appends bytes as a row spells them.
///
/// # Errors
///
/// Want of memory.
pub fn push_bytes(text: &mut String, bytes: &[u8]) -> Result<(), AllocError> {
    for byte in bytes {
        push_shown(text, *byte)?;
    }
    Ok(())
}

/// The two parts of a row at its first space.
pub fn first_word(row: &str) -> (&str, &str) {
    match row.split_once(" ") {
        Some(parts) => parts,
        None => (row, ""),
    }
}
