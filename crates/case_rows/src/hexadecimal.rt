// Bytes in hexadecimal.
use anyhow::{Context, Result};
use std::alloc::{AllocError, Global};

/// The bytes that digits spell. Spaces among them are passed over.
///
/// # Errors
///
/// Other characters, and want of memory.
pub fn bytes_of(alloc: Global, digits: &str) -> Result<Vec<u8>> {
    let mut bytes = Vec::new(alloc);
    let mut high: Option<u8> = None;
    for character in digits.chars() {
        if character == ' ' {
            continue;
        }
        let digit = character.to_digit(16).context("no hexadecimal digit")?;
        let digit = u8::try_from(digit)?;
        match high {
            None => high = Some(digit),
            Some(first) => {
                bytes.push(u8::try_from(u16::from(first) * 16 + u16::from(digit))?)?;
                high = None;
            }
        }
    }
    Ok(bytes)
}

/// Appends bytes in hexadecimal, or their number where they are more than `most`.
///
/// # Errors
///
/// Want of memory.
pub fn push_hex(text: &mut String, bytes: &[u8], most: usize) -> Result<(), AllocError> {
    if bytes.is_empty() {
        return text.push_str("nothing");
    }
    if bytes.len() > most {
        return write!(text, "{} bytes", bytes.len());
    }
    for byte in bytes {
        write!(text, "{byte:02x}")?;
    }
    Ok(())
}
