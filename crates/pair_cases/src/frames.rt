// The frames of a slave's messages and of replies, spelled by the table of messages and not by the crate that writes frames.
use anyhow::{Result, bail};
use pt_base::{IntType, Span, Trap};
use std::alloc::{AllocError, Global};
use wire::{Arg, Block, CallBody, Message, ReplyBody, WireCell};

/// The frame of a message that a slave says, or of a reply to it.
///
/// # Errors
///
/// A piece of a boot, more of something than its field holds, and want of memory.
pub fn frame_of(alloc: Global, message: &Message) -> Result<Vec<u8>> {
    let payload = payload_of(alloc, message)?;
    let mut frame = Vec::new(alloc);
    frame.extend_from_slice(&u32::try_from(payload.len())?.to_be_bytes())?;
    frame.extend_from_slice(&payload)?;
    Ok(frame)
}

fn payload_of(alloc: Global, message: &Message) -> Result<Vec<u8>> {
    match message {
        Message::Call {
            turns,
            function,
            depth,
            wants,
            body,
        } => {
            let mut out = begun(alloc, 1, *turns)?;
            out.extend_from_slice(&function.to_be_bytes())?;
            out.push(*depth)?;
            out.push(u8::from(*wants))?;
            put_body(&mut out, body)?;
            Ok(out)
        }
        Message::Emit { turns, bytes } => Ok(emitted(alloc, *turns, bytes.as_slice())?),
        Message::Exit { turns, status } => Ok(exited(alloc, *turns, *status)?),
        Message::Trap { turns, kind, span } => Ok(trapped(alloc, *turns, *kind, *span)?),
        Message::Park { turns } => Ok(begun(alloc, 5, *turns)?),
        Message::Reply(body) => Ok(replied(alloc, body)?),
        Message::Boot(_) => bail!("no message of a slave or to one"),
    }
}

// A tag and the turns.
fn begun(alloc: Global, tag: u8, turns: u64) -> Result<Vec<u8>, AllocError> {
    let mut out = Vec::new(alloc);
    out.push(tag)?;
    out.extend_from_slice(&turns.to_be_bytes())?;
    Ok(out)
}

fn emitted(alloc: Global, turns: u64, bytes: &[u8]) -> Result<Vec<u8>, AllocError> {
    let mut out = begun(alloc, 2, turns)?;
    out.extend_from_slice(bytes)?;
    Ok(out)
}

fn exited(alloc: Global, turns: u64, status: i32) -> Result<Vec<u8>, AllocError> {
    let mut out = begun(alloc, 3, turns)?;
    out.extend_from_slice(&status.cast_unsigned().to_be_bytes())?;
    Ok(out)
}

fn trapped(alloc: Global, turns: u64, kind: Trap, span: Span) -> Result<Vec<u8>, AllocError> {
    let mut out = begun(alloc, 4, turns)?;
    out.push(kind_number(kind))?;
    out.extend_from_slice(&span.from.to_be_bytes())?;
    out.extend_from_slice(&span.to.to_be_bytes())?;
    Ok(out)
}

fn replied(alloc: Global, body: &ReplyBody) -> Result<Vec<u8>> {
    let mut out = Vec::new(alloc);
    out.push(6)?;
    match body.result {
        Some(cell) => {
            out.push(1)?;
            put_cell(&mut out, cell)?;
        }
        None => out.push(0)?,
    }
    let cells = body.cells.as_slice();
    out.extend_from_slice(&u32::try_from(cells.len())?.to_be_bytes())?;
    for cell in cells {
        put_cell(&mut out, *cell)?;
    }
    Ok(out)
}

fn put_body(out: &mut Vec<u8>, body: &CallBody) -> Result<()> {
    let args = body.args.as_slice();
    out.push(u8::try_from(args.len())?)?;
    for arg in args {
        put_arg(out, *arg)?;
    }
    let blocks = body.blocks.as_slice();
    out.push(u8::try_from(blocks.len())?)?;
    for block in blocks {
        put_block(out, block)?;
    }
    Ok(())
}

fn put_arg(out: &mut Vec<u8>, arg: Arg) -> Result<(), AllocError> {
    match arg {
        Arg::Number(number) => put_cell(out, WireCell::Number(number)),
        Arg::Sealed(handle) => put_cell(out, WireCell::Sealed(handle)),
        Arg::Null => Ok(out.push(2)?),
        Arg::At {
            block,
            base,
            count,
            index,
        } => put_pointer(out, block, [base, count, index]),
    }
}

fn put_pointer(out: &mut Vec<u8>, block: u8, numbers: [u32; 3]) -> Result<(), AllocError> {
    out.push(3)?;
    out.push(block)?;
    for number in numbers {
        out.extend_from_slice(&number.to_be_bytes())?;
    }
    Ok(())
}

fn put_block(out: &mut Vec<u8>, block: &Block) -> Result<()> {
    let cells = block.as_slice();
    out.extend_from_slice(&u32::try_from(cells.len())?.to_be_bytes())?;
    for (ty, cell) in cells {
        out.push(type_number(*ty))?;
        put_cell(out, *cell)?;
    }
    Ok(())
}

fn put_cell(out: &mut Vec<u8>, cell: WireCell) -> Result<(), AllocError> {
    match cell {
        WireCell::Number(number) => {
            out.push(0)?;
            out.extend_from_slice(&number.cast_unsigned().to_be_bytes())?;
        }
        WireCell::Sealed(handle) => {
            out.push(1)?;
            out.extend_from_slice(&handle.to_be_bytes())?;
        }
    }
    Ok(())
}

fn type_number(ty: IntType) -> u8 {
    match ty {
        IntType::Char => 0,
        IntType::SChar => 1,
        IntType::UChar => 2,
        IntType::Short => 3,
        IntType::UShort => 4,
        IntType::Int => 5,
        IntType::UInt => 6,
        IntType::Long => 7,
        IntType::ULong => 8,
    }
}

fn kind_number(kind: Trap) -> u8 {
    match kind {
        Trap::Overflow => 1,
        Trap::DivZero => 2,
        Trap::Shift => 3,
        Trap::Bounds => 4,
        Trap::Null => 5,
        Trap::PtrRange => 6,
        Trap::PtrCompare => 7,
        Trap::Depth => 8,
        Trap::NoReturn => 9,
    }
}
