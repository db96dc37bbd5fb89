// What the slave is sent.
ghost use Rattle.std.specs.Prelude.{◌≡◌, ◌<◌, ◌++◌, IfOk, IfSome, OnOk, length};
ghost use Rattle.memory_link.specs.Reading.{HearsAll, IsReading, Reads};

use crate::slave_half::SlaveHalf;
use std::alloc::{AllocError, Global};
use wire::{Message, Reader, WireError, are_bytes};

// The message at the front, if a whole frame is there. Behind a fault there is none.
fn next_message(alloc: Global, reader: &mut Reader) -> Result<Option<Message>, AllocError>
    ensures reads { IfOk result (λ found. IsReading reader.old → Reads reader.old found reader.new) }
    ensures less { IfOk result (λ found. IfSome found (λ m. length reader.new.unread < length reader.old.unread)) }
{
    match reader.next(alloc) {
        Ok(Some((message, _))) => Ok(Some(message)),
        Ok(None) => Ok(None),
        Err(WireError::BadFrame(_)) => Ok(None),
        Err(WireError::TooLong(_)) => Ok(None),
        Err(WireError::Memory) => Err(AllocError),
    }
}

/// The slave hears the messages whose frames are whole, in turn.
pub(crate) fn hear_all(
    alloc: Global,
    half: &mut SlaveHalf,
    reader: &mut Reader,
) -> Result<(), AllocError>
    ensures { OnOk result (IsReading reader.old → HearsAll half.old reader.old half.new reader.new) }
{
    loop {
        let Some(message) = next_message(alloc, reader)? else {
            return Ok(());
        };
        half.hear(alloc, message)?;
    }
}

/// Takes bytes that were sent.
pub(crate) fn feed(reader: &mut Reader, bytes: &[u8]) -> Result<(), AllocError>
    ensures reading { OnOk result (IsReading reader.old → IsReading reader.new) }
    ensures unread { OnOk result (reader.new.unread ≡ reader.old.unread ++ bytes.now) }
{
    are_bytes(bytes);
    reader.feed(bytes)?;
    Ok(())
}
