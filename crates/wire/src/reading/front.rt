// What stands at the front of a stream.
ghost use Rattle.std.specs.Prelude.{IfOk, OnErr};
ghost use Rattle.wire.specs.Frames.{HoldsFrame};
ghost use Rattle.wire.specs.Fronts.{IsFront};

use super::fields::first_u32;
use super::messages::message;
use crate::fault::ReadError;
use crate::limits::LONGEST_PAYLOAD;
use crate::message::Message;
use std::alloc::{AllocError, Global};

/// What the bytes begin with.
#[derive(Drop)]
pub(crate) enum Front {
    /// Less than a whole frame.
    Unfinished,
    /// A length over the limit.
    TooLong,
    /// A whole frame that spells no message.
    BadFrame,
    /// The spelling of a message, and how many bytes it has.
    Framed(Message, usize),
}

/// What the bytes begin with. Only the payload of a whole frame is looked at.
pub(crate) fn beginning(alloc: Global, bytes: &[u8]) -> Result<Front, AllocError>
    ensures ok { IfOk result (λ f. IsFront f bytes.now) }
    ensures err { OnErr result (HoldsFrame bytes.now) }
{
    let Some((size, tail)) = first_u32(bytes) else {
        return Ok(Front::Unfinished);
    };
    if LONGEST_PAYLOAD < size {
        return Ok(Front::TooLong);
    }
    let size = size as usize;
    if tail.len() < size {
        return Ok(Front::Unfinished);
    }
    match message(alloc, &tail[..size]) {
        Ok(message) => Ok(Front::Framed(message, 4 + size)),
        Err(ReadError::Bad) => Ok(Front::BadFrame),
        Err(ReadError::Memory) => Err(AllocError),
    }
}
