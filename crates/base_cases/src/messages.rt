// Messages in words.
use case_rows::{int_name, push_hex};
use pt_base::IntType;
use std::alloc::{AllocError, Global};
use wire::{Arg, CallBody, Message, ReplyBody, WireCell};

/// A message with more bytes or cells than these is told by their number.
const FEW: usize = 8;

/// Appends a message in words.
pub fn push_message(text: &mut String, message: &Message) -> Result<(), AllocError> {
    match message {
        Message::Boot(piece) => {
            text.push_str("Boot ")?;
            push_hex(text, piece.as_slice(), FEW)
        }
        Message::Call {
            turns,
            function,
            depth,
            wants,
            body,
        } => {
            write!(text, "Call turns {turns} function {function} depth {depth}")?;
            text.push_str(if *wants {
                " wants a reply"
            } else {
                " wants none"
            })?;
            push_call(text, body)
        }
        Message::Emit { turns, bytes } => {
            write!(text, "Emit turns {turns} ")?;
            push_hex(text, bytes.as_slice(), FEW)
        }
        Message::Exit { turns, status } => write!(text, "Exit turns {turns} status {status}"),
        Message::Trap { turns, kind, span } => {
            let (name, from, to) = (kind.name(), span.from, span.to);
            write!(text, "Trap turns {turns} {name} {from}..{to}")
        }
        Message::Park { turns } => write!(text, "Park turns {turns}"),
        Message::Reply(body) => push_reply(text, body),
    }
}

fn push_call(text: &mut String, body: &CallBody) -> Result<(), AllocError> {
    for argument in body.args.as_slice() {
        match argument {
            Arg::Number(number) => write!(text, ", {number}")?,
            Arg::Sealed(handle) => write!(text, ", handle {handle}")?,
            Arg::Null => text.push_str(", null")?,
            Arg::At {
                block,
                base,
                count,
                index,
            } => write!(
                text,
                ", block {block} base {base} count {count} index {index}"
            )?,
        }
    }
    for block in body.blocks.as_slice() {
        push_block(text, block.as_slice())?;
    }
    Ok(())
}

fn push_block(text: &mut String, cells: &[(IntType, WireCell)]) -> Result<(), AllocError> {
    if cells.len() > FEW {
        return write!(text, ", [{} cells]", cells.len());
    }
    text.push_str(", [")?;
    for (place, (ty, cell)) in cells.iter().enumerate() {
        if place > 0 {
            text.push_str(", ")?;
        }
        write!(text, "{} ", int_name(*ty))?;
        push_cell(text, cell)?;
    }
    text.push(']')
}

fn push_cell(text: &mut String, cell: &WireCell) -> Result<(), AllocError> {
    match cell {
        WireCell::Number(number) => write!(text, "{number}"),
        WireCell::Sealed(handle) => write!(text, "handle {handle}"),
    }
}

fn push_reply(text: &mut String, body: &ReplyBody) -> Result<(), AllocError> {
    text.push_str("Reply ")?;
    match &body.result {
        Some(cell) => push_cell(text, cell)?,
        None => text.push_str("no result")?,
    }
    for cell in body.cells.as_slice() {
        text.push_str(", ")?;
        push_cell(text, cell)?;
    }
    Ok(())
}
