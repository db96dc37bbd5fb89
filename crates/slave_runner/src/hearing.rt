// What the peer says: the frame at the front of the reader, and more bytes.
ghost use Rattle.std.specs.Prelude.{◌≡◌, ◌≢◌, None, IfErr, OnOk};
ghost use Rattle.pt_base.specs.Faults.{HasCause};
ghost use Rattle.pair_runner.specs.Sending.{Parts, Talks};
ghost use Rattle.slave_runner.specs.Faults.{FirstFault};
ghost use Rattle.slave_runner.specs.Fronts.{Fed, IsFront, Unfed};
ghost use Rattle.slave_runner.specs.Turns.{IsShort};

use crate::fault::WorkFault;
use pt_base::Link;
use std::alloc::Global;
use wire::{Message, Reader, WireError, are_bytes};

/// So many bytes are asked for at once.
const MOST_AT_ONCE: usize = 65_536;

/// What stands at the front of a reader.
#[derive(Drop)]
pub(crate) enum Front {
    /// Less than a whole frame.
    Unfinished,
    /// A message, with the place of its frame.
    Framed(Message, u64),
    /// At this place a whole frame that spells no message.
    Bad(u64),
}

/// Takes what stands at the front. A frame over the limit breaks a rule.
pub(crate) fn next_frame(alloc: Global, reader: &mut Reader) -> Result<Front, WorkFault>
    ensures front { reader.old.fault ≡ None → IsFront reader.old result reader.new }
    ensures link { IfErr result (λ e. e ≢ WorkFault.LinkFailed) }
{
    match reader.next(alloc) {
        Ok(None) => Ok(Front::Unfinished),
        Ok(Some((message, place))) => Ok(Front::Framed(message, place)),
        Err(WireError::BadFrame(place)) => Ok(Front::Bad(place)),
        Err(WireError::TooLong(offset)) => Err(WorkFault::BadPeer { rule: 2, offset }),
        Err(WireError::Memory) => Err(WorkFault::Memory),
    }
}

/// Asks for more bytes.
pub(crate) fn hear<L: Link>(
    alloc: Global,
    reader: &mut Reader,
    link: &mut L,
) -> Result<(), WorkFault>
    requires ready { L.ready link.old }
    ensures ok { OnOk result (Fed (Talks L.came L.sent L.given link.old link.new) reader.old reader.new) }
    ensures short { OnOk result (IsShort reader.new) }
    ensures err { IfErr result (Unfed (Talks L.came L.sent L.given link.old link.new) (Parts L.sent L.given link.old link.new)) }
    ensures ready { L.ready link.new }
    ensures cause { HasCause (L.faults link.old) (L.faults link.new) result WorkFault.LinkFailed WorkFault.Memory }
    ensures first { FirstFault (L.faults link.old) (L.faults link.new) result }
{
    let piece = link.receive(alloc, MOST_AT_ONCE)?;
    let bytes = piece.as_slice();
    if bytes.is_empty() {
        return Err(WorkFault::PeerEnded);
    }
    are_bytes(bytes);
    reader.feed(bytes)?;
    Ok(())
}
