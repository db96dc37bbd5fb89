// Streams at the limits of frames, pieces of boots and blocks, and streams of more messages than there are turns.
use crate::streams::making::{LIMIT, headed};
use crate::{INT, LONG, push_big};
use std::alloc::{AllocError, Global};

/// How many there are.
pub const LARGE_STREAMS: u8 = 13;

// So many messages are more than the turns of a run.
const FLOOD: u64 = 1100;

/// The stream of this number: an Emit, and behind it what is large.
///
/// # Errors
///
/// Want of memory.
pub fn large_stream(alloc: Global, number: u8) -> Result<Vec<u8>, AllocError> {
    let mut out = Vec::new(alloc);
    out.extend_from_slice(&[0, 0, 0, 10, 2, 0, 0, 0, 0, 0, 0, 0, 1, b'x'])?;
    let limit = u64::from(LIMIT);
    match number {
        0 => push_emit(alloc, &mut out, limit)?,
        1 => {
            push_emit(alloc, &mut out, limit)?;
            out.pop();
        }
        2 => push_emit(alloc, &mut out, limit + 1)?,
        3 => {
            push_frame(&mut out, &keep_call(alloc, 65_536, 1)?)?;
            push_last(&mut out)?;
        }
        4 => {
            push_frame(&mut out, &open_call(alloc)?)?;
            push_last(&mut out)?;
        }
        5 => push_frame(&mut out, &keep_call(alloc, 65_537, 1)?)?,
        6 => push_frame(&mut out, &keep_call(alloc, 65_536, 8)?)?,
        7 => {
            let mut payload = keep_call(alloc, 65_536, 1)?;
            let more = limit.saturating_sub(payload.len() as u64);
            push_same(&mut payload, 0, more)?;
            push_frame(&mut out, &payload)?;
        }
        8 => push_boot(&mut out, 1_048_577)?,
        9 => push_boot(&mut out, 1_048_578)?,
        10 => push_reply(alloc, &mut out, 986_894)?,
        11 => push_keeps(alloc, &mut out)?,
        _ => push_emits(alloc, &mut out)?,
    }
    Ok(out)
}

fn push_same(out: &mut Vec<u8>, byte: u8, count: u64) -> Result<(), AllocError> {
    for _ in 0..count {
        out.push(byte)?;
    }
    Ok(())
}

fn push_frame(out: &mut Vec<u8>, payload: &[u8]) -> Result<(), AllocError> {
    push_big(out, payload.len() as u64, 4)?;
    out.extend_from_slice(payload)
}

fn push_emit(alloc: Global, out: &mut Vec<u8>, length: u64) -> Result<(), AllocError> {
    push_big(out, length, 4)?;
    out.extend_from_slice(&headed(alloc, 2, 2)?)?;
    push_same(out, b'y', length.saturating_sub(9))
}

fn push_boot(out: &mut Vec<u8>, length: u64) -> Result<(), AllocError> {
    push_big(out, length, 4)?;
    push_same(out, 0, length)
}

fn push_reply(alloc: Global, out: &mut Vec<u8>, count: u64) -> Result<(), AllocError> {
    let mut payload = Vec::new(alloc);
    payload.extend_from_slice(&[6, 0])?;
    push_big(&mut payload, count, 4)?;
    for _ in 0..count {
        push_number(&mut payload)?;
    }
    push_frame(out, &payload)
}

fn push_number(out: &mut Vec<u8>) -> Result<(), AllocError> {
    out.push(0)?;
    out.extend_from_slice(&3_i128.to_be_bytes())
}

// A Call of a function at depth 2 that wants a reply, before its arguments.
fn call_of(alloc: Global, function: u64) -> Result<Vec<u8>, AllocError> {
    let mut out = headed(alloc, 1, 1)?;
    push_big(&mut out, function, 4)?;
    out.extend_from_slice(&[2, 1])?;
    Ok(out)
}

// A pointer to so many elements from the first cell of the first block on.
fn push_pointer(out: &mut Vec<u8>, count: u64) -> Result<(), AllocError> {
    out.extend_from_slice(&[3, 0, 0, 0, 0, 0])?;
    push_big(out, count, 4)?;
    push_big(out, 0, 4)
}

// A block of cells of these types, so many times.
fn push_block(out: &mut Vec<u8>, types: &[u8], times: u64) -> Result<(), AllocError> {
    push_big(out, times.saturating_mul(types.len() as u64), 4)?;
    for _ in 0..times {
        for ty in types {
            out.push(*ty)?;
            push_number(out)?;
        }
    }
    Ok(())
}

// A Call of keep with so many longs, in so many blocks of which the first is named.
fn keep_call(alloc: Global, longs: u64, blocks: u8) -> Result<Vec<u8>, AllocError> {
    let mut out = call_of(alloc, 4)?;
    out.push(2)?;
    push_pointer(&mut out, longs)?;
    push_number(&mut out)?;
    out.push(blocks)?;
    for _ in 0..blocks {
        push_block(&mut out, &[LONG], longs)?;
    }
    Ok(out)
}

// A Call of open with as many accounts as a block holds.
fn open_call(alloc: Global) -> Result<Vec<u8>, AllocError> {
    let mut out = call_of(alloc, 3)?;
    out.push(1)?;
    push_pointer(&mut out, 32_768)?;
    out.push(1)?;
    push_block(&mut out, &[INT, LONG], 32_768)?;
    Ok(out)
}

// Calls of keep with one long.
fn push_keeps(alloc: Global, out: &mut Vec<u8>) -> Result<(), AllocError> {
    let payload = keep_call(alloc, 1, 1)?;
    for _ in 0..FLOOD {
        push_frame(out, &payload)?;
    }
    Ok(())
}

// Emits of one byte, each a turn later.
fn push_emits(alloc: Global, out: &mut Vec<u8>) -> Result<(), AllocError> {
    for place in 0..FLOOD {
        let mut payload = headed(alloc, 2, place.saturating_add(2))?;
        payload.push(b'z')?;
        push_frame(out, &payload)?;
    }
    Ok(())
}

// A Call of note with the last handle of 65,536, and an Exit.
fn push_last(out: &mut Vec<u8>) -> Result<(), AllocError> {
    out.extend_from_slice(&[0, 0, 0, 43, 1, 0, 0, 0, 0, 0, 0, 0, 1, 0, 0, 0, 1, 0, 0, 2])?;
    push_number(out)?;
    out.push(1)?;
    push_big(out, 65_535, 8)?;
    out.push(0)?;
    out.extend_from_slice(&[0, 0, 0, 13, 3, 0, 0, 0, 0, 0, 0, 0, 1, 0, 0, 0, 0])
}
