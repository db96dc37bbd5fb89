// One stream cut in every place, and ended in every place.
use crate::supervised::outcome;
use crate::texts::Texts;
use anyhow::Result;
use case_rows::{bytes_of, first_word};
use std::alloc::{AllocError, Global};
use std::thread::Threads;

/// What the monitor makes of the stream that a row spells behind its turns, and again of each cut that comes to something
/// else: in two pieces at each place, and byte by byte.
///
/// # Errors
///
/// A row of no such form, texts with faults, and want of memory.
pub fn cuts<R: Threads + Sync>(rt: &R, alloc: Global, texts: &Texts, row: &str) -> Result<String> {
    let (turns, stream) = first_word(row);
    let turns = turns.parse::<u32>()?;
    let bytes = bytes_of(alloc, stream)?;
    let mut told = format!(in alloc; "cuts {row}\n")?;
    let whole = in_pieces(rt, alloc, texts, turns, &bytes, bytes.len())?;
    told.push_str(whole.as_str())?;
    for first in 1..bytes.len() {
        let other = in_two(rt, alloc, texts, turns, &bytes, first)?;
        if other.as_str() != whole.as_str() {
            write!(told, "\n cut at {first}:\n{other}")?;
        }
    }
    for size in [1, 2, 3, 7] {
        let other = in_pieces(rt, alloc, texts, turns, &bytes, size)?;
        if other.as_str() != whole.as_str() {
            write!(told, "\n in pieces of {size}:\n{other}")?;
        }
    }
    Ok(told)
}

/// What the monitor makes of each first part of the stream that a row spells behind its turns, where the link's end comes
/// behind it: what it makes of none, and again from each length on that comes to something else.
///
/// # Errors
///
/// A row of no such form, texts with faults, and want of memory.
pub fn firsts<R: Threads + Sync>(
    rt: &R,
    alloc: Global,
    texts: &Texts,
    row: &str,
) -> Result<String> {
    let (turns, stream) = first_word(row);
    let turns = turns.parse::<u32>()?;
    let bytes = bytes_of(alloc, stream)?;
    let mut told = format!(in alloc; "firsts {row}")?;
    let mut last = String::new(alloc);
    for (length, _) in bytes.iter().enumerate() {
        let part = first_bytes(&bytes, length);
        let shown = in_pieces(rt, alloc, texts, turns, part, length)?;
        if shown.as_str() != last.as_str() {
            write!(told, "\n from {length} bytes on:\n{shown}")?;
            last = shown;
        }
    }
    let whole = in_pieces(rt, alloc, texts, turns, &bytes, bytes.len())?;
    write!(told, "\n all {}:\n{whole}", bytes.len())?;
    Ok(told)
}

fn first_bytes(bytes: &[u8], length: usize) -> &[u8] {
    match bytes.get(..length) {
        Some(part) => part,
        None => bytes,
    }
}

// What the monitor makes of the bytes in pieces of this size.
fn in_pieces<R: Threads + Sync>(
    rt: &R,
    alloc: Global,
    texts: &Texts,
    turns: u32,
    bytes: &[u8],
    size: usize,
) -> Result<String> {
    let pieces = pieces_of(alloc, bytes, size)?;
    outcome(
        rt,
        alloc,
        texts,
        turns,
        pieces,
        (Vec::new(alloc), Vec::new(alloc)),
    )
}

/// The bytes in pieces of this size, or of one byte where it is 0.
///
/// # Errors
///
/// Want of memory.
pub fn pieces_of(alloc: Global, bytes: &[u8], size: usize) -> Result<Vec<Vec<u8>>, AllocError> {
    let mut pieces = Vec::new(alloc);
    for piece in bytes.chunks(size.max(1)) {
        pieces.push(piece.to_vec(alloc)?)?;
    }
    Ok(pieces)
}

// The same of two pieces, the first of this length.
fn in_two<R: Threads + Sync>(
    rt: &R,
    alloc: Global,
    texts: &Texts,
    turns: u32,
    bytes: &[u8],
    first: usize,
) -> Result<String> {
    let mut pieces = Vec::new(alloc);
    pieces.push(first_bytes(bytes, first).to_vec(alloc)?)?;
    if let Some(rest) = bytes.get(first..) {
        pieces.push(rest.to_vec(alloc)?)?;
    }
    outcome(
        rt,
        alloc,
        texts,
        turns,
        pieces,
        (Vec::new(alloc), Vec::new(alloc)),
    )
}
