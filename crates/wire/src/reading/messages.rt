// Reading a payload, and what stands at the front of a stream.
ghost use Rattle.wire.specs.Reading.{Gives, boot_of, call_of, emit_of, exit_of, trap_of, park_of, reply_of, payload_of};

use super::fields::{byte, number_i32, number_u32, number_u64, trap_kind, truth};
use super::lists::{call_body, reply_body};
use crate::fault::ReadError;
use crate::limits::LONGEST_PIECE;
use crate::message::Message;
use pt_base::{Bytes, Span};
use std::alloc::Global;

#[tactic(auto, unfolding(crate::specs::Reading::boot_of))]
fn boot(alloc: Global, bytes: &[u8]) -> Result<Message, ReadError>
    ensures { Gives (λ m. m) result (boot_of bytes.now) }
{
    if LONGEST_PIECE < bytes.len() {
        return Err(ReadError::Bad);
    }
    let piece = Bytes::new(Vec::from_slice(alloc, bytes)?);
    Ok(Message::Boot(piece))
}

#[tactic(auto, unfolding(crate::specs::Reading::call_of))]
fn call(alloc: Global, bytes: &[u8]) -> Result<Message, ReadError>
    ensures { Gives (λ m. m) result (call_of bytes.now) }
{
    let (turns, rest) = number_u64(bytes)?;
    let (function, rest) = number_u32(rest)?;
    let (depth, rest) = byte(rest)?;
    let (wants, rest) = truth(rest)?;
    let (body, rest) = call_body(alloc, rest)?;
    if !rest.is_empty() {
        return Err(ReadError::Bad);
    }
    Ok(Message::Call {
        turns,
        function,
        depth,
        wants,
        body,
    })
}

#[tactic(auto, unfolding(crate::specs::Reading::emit_of))]
fn emit(alloc: Global, bytes: &[u8]) -> Result<Message, ReadError>
    ensures { Gives (λ m. m) result (emit_of bytes.now) }
{
    let (turns, rest) = number_u64(bytes)?;
    let bytes = Bytes::new(Vec::from_slice(alloc, rest)?);
    Ok(Message::Emit { turns, bytes })
}

#[tactic(auto, unfolding(crate::specs::Reading::exit_of))]
fn exit(bytes: &[u8]) -> Result<Message, ReadError>
    ensures { Gives (λ m. m) result (exit_of bytes.now) }
{
    let (turns, rest) = number_u64(bytes)?;
    let (status, rest) = number_i32(rest)?;
    if !rest.is_empty() {
        return Err(ReadError::Bad);
    }
    Ok(Message::Exit { turns, status })
}

#[tactic(auto, unfolding(crate::specs::Reading::trap_of))]
fn trap(bytes: &[u8]) -> Result<Message, ReadError>
    ensures { Gives (λ m. m) result (trap_of bytes.now) }
{
    let (turns, rest) = number_u64(bytes)?;
    let (number, rest) = byte(rest)?;
    let kind = trap_kind(number).ok_or(ReadError::Bad)?;
    let (from, rest) = number_u32(rest)?;
    let (to, rest) = number_u32(rest)?;
    if !rest.is_empty() {
        return Err(ReadError::Bad);
    }
    let span = Span { from, to };
    Ok(Message::Trap { turns, kind, span })
}

#[tactic(auto, unfolding(crate::specs::Reading::park_of))]
fn park(bytes: &[u8]) -> Result<Message, ReadError>
    ensures { Gives (λ m. m) result (park_of bytes.now) }
{
    let (turns, rest) = number_u64(bytes)?;
    if !rest.is_empty() {
        return Err(ReadError::Bad);
    }
    Ok(Message::Park { turns })
}

#[tactic(auto, unfolding(crate::specs::Reading::reply_of))]
fn reply(alloc: Global, bytes: &[u8]) -> Result<Message, ReadError>
    ensures { Gives (λ m. m) result (reply_of bytes.now) }
{
    let (body, rest) = reply_body(alloc, bytes)?;
    if !rest.is_empty() {
        return Err(ReadError::Bad);
    }
    Ok(Message::Reply(body))
}

/// The message whose payload the bytes are.
#[tactic(auto, unfolding(crate::specs::Reading::payload_of))]
pub(crate) fn message(alloc: Global, payload: &[u8]) -> Result<Message, ReadError>
    ensures { Gives (λ m. m) result (payload_of payload.now) }
{
    match payload {
        [] => Err(ReadError::Bad),
        [0, rest @ ..] => boot(alloc, rest),
        [1, rest @ ..] => call(alloc, rest),
        [2, rest @ ..] => emit(alloc, rest),
        [3, rest @ ..] => exit(rest),
        [4, rest @ ..] => trap(rest),
        [5, rest @ ..] => park(rest),
        [6, rest @ ..] => reply(alloc, rest),
        [_, ..] => Err(ReadError::Bad),
    }
}
