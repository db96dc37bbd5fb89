// Bytes as frames: the messages in them, and the bytes of these again.
use crate::messages::push_message;
use anyhow::{Result, bail};
use case_rows::{bytes_of, push_hex, spelled};
use std::alloc::Global;
use wire::{Reader, WireError, write_message};

/// Frames with more bytes than these are told by their number.
const SHORT: usize = 128;

/// The row and what a reader gives for its pieces, which `|` divides: each message with its place, in
/// words and as it is written again, and the fault or the end of what is there.
///
/// # Errors
///
/// A row that isn't hexadecimal, and want of memory.
pub fn frames(alloc: Global, row: &str) -> Result<String> {
    let text = spelled(alloc, row)?;
    let mut told = format!(in alloc; "frames {row}")?;
    let mut reader = Reader::new(alloc);
    for piece in text.split("|") {
        reader.feed(&bytes_of(alloc, piece)?)?;
        push_read(alloc, &mut told, &mut reader)?;
    }
    Ok(told)
}

/// The same for the frame with the row's payload.
///
/// # Errors
///
/// A row that isn't hexadecimal, and want of memory.
pub fn payload(alloc: Global, row: &str) -> Result<String> {
    let text = spelled(alloc, row)?;
    let payload = bytes_of(alloc, text.as_str())?;
    let mut told = format!(in alloc; "payload {row}")?;
    let mut reader = Reader::new(alloc);
    reader.feed(&u32::try_from(payload.len())?.to_be_bytes())?;
    reader.feed(&payload)?;
    push_read(alloc, &mut told, &mut reader)?;
    Ok(told)
}

// Appends what the reader gives until it has no message.
fn push_read(alloc: Global, told: &mut String, reader: &mut Reader) -> Result<()> {
    for _ in 0..u64::MAX {
        match reader.next(alloc) {
            Ok(Some((message, place))) => {
                let mut frame = Vec::new(alloc);
                write_message(alloc, &message, &mut frame)?;
                write!(told, "\n  {place} ")?;
                push_message(told, &message)?;
                told.push_str("\n    is written ")?;
                push_hex(told, &frame, SHORT)?;
            }
            Ok(None) => {
                told.push_str("\n  no more")?;
                return Ok(());
            }
            Err(WireError::BadFrame(place)) => {
                write!(told, "\n  bad frame at {place}")?;
                return Ok(());
            }
            Err(WireError::TooLong(place)) => {
                write!(told, "\n  too long at {place}")?;
                return Ok(());
            }
            Err(WireError::Memory) => bail!("out of memory"),
        }
    }
    Ok(())
}

/// The row's bytes cut at each place: the places of the messages, where all cuts give the same ones and
/// these are written as the row's bytes.
///
/// # Errors
///
/// A row that isn't hexadecimal, a cut that gives other messages, and want of memory.
pub fn cuts(alloc: Global, row: &str) -> Result<String> {
    let stream = bytes_of(alloc, row)?;
    let mut told = format!(in alloc; "cuts {row}")?;
    let first = places_at(alloc, &stream, 0)?;
    for cut in 0..=stream.len() {
        if places_at(alloc, &stream, cut)? != first {
            bail!("other messages for the cut at {cut}");
        }
    }
    write!(
        told,
        "\n  {} cuts give the messages at",
        stream.len().saturating_add(1)
    )?;
    for place in &first {
        write!(told, " {place}")?;
    }
    Ok(told)
}

// The places of the messages that are read of the bytes in two pieces.
fn places_at(alloc: Global, stream: &[u8], cut: usize) -> Result<Vec<u64>> {
    let (Some(front), Some(back)) = (stream.get(..cut), stream.get(cut..)) else {
        bail!("no such cut");
    };
    let mut reader = Reader::new(alloc);
    let mut written = Vec::new(alloc);
    let mut places = Vec::new(alloc);
    for piece in [front, back] {
        reader.feed(piece)?;
        for _ in 0..stream.len() {
            match reader.next(alloc) {
                Ok(Some((message, place))) => {
                    write_message(alloc, &message, &mut written)?;
                    places.push(place)?;
                }
                Ok(None) => break,
                Err(_) => bail!("a fault for the cut at {cut}"),
            }
        }
    }
    if written.as_slice() != stream {
        bail!("other bytes for the cut at {cut}");
    }
    Ok(places)
}
