// The beginning: the boot is read, and its slave made.
ghost use Rattle.std.specs.Prelude.{◌≡◌, ◌≢◌, ◌+◌, ℕ, [], None, IfErr, IfOk, OnOk};
ghost use Rattle.pt_base.specs.Faults.{HasCause};
ghost use Rattle.wire.specs.View.{fresh};
ghost use Rattle.pt_core.specs.CodeTree.{BootTree};
ghost use Rattle.pair_meaning.specs.SlaveRun.{slave_of};
ghost use Rattle.slave_interp.specs.Slaves.{IsSlave};
ghost use Rattle.pair_runner.specs.Sending.{Parts, Talks};
ghost use Rattle.slave_runner.specs.Faults.{FirstFault};
ghost use Rattle.slave_runner.specs.Fronts.{Pieced};
ghost use Rattle.slave_runner.specs.Outcomes.{IsRefused};
ghost use Rattle.slave_runner.specs.Reading.{piece_in};
ghost use Rattle.slave_runner.specs.SoFar.{Begun, Read, Whole, Working};
ghost use Rattle.slave_runner.specs.Turns.{IsShort, Reads, Runs};

use crate::fault::WorkFault;
use crate::hearing::{Front, hear, next_frame};
use boot_rules::read_boot;
use pt_base::{Bytes, Link};
use slave_interp::Slave;
use std::alloc::Global;
use wire::{Message, Reader};

/// What stands before the empty piece has to be pieces of a well-formed boot.
const BAD_BOOT: WorkFault = WorkFault::BadPeer {
    rule: 11,
    offset: 0,
};

// The piece of a boot that a message is.
fn piece_of(message: Message) -> Option<Bytes>
    ensures { result ≡ piece_in message }
{
    match message {
        Message::Boot(piece) => Some(piece),
        Message::Call { .. }
        | Message::Emit { .. }
        | Message::Exit { .. }
        | Message::Trap { .. }
        | Message::Park { .. }
        | Message::Reply(_) => None,
    }
}

// Adds a piece to the bytes before it, and tells whether it is the empty one.
fn add_piece(bytes: &mut Vec<u8>, piece: Option<Bytes>) -> Result<bool, WorkFault>
    ensures pieced { Pieced piece bytes.old.items bytes.new.items result }
    ensures link { IfErr result (λ e. e ≢ WorkFault.LinkFailed) }
{
    let Some(piece) = piece else {
        return Err(BAD_BOOT);
    };
    let more = piece.as_slice();
    if more.is_empty() {
        return Ok(true);
    }
    bytes.extend_from_slice(more)?;
    Ok(false)
}

// Reads the frame at the front, or asks for more bytes where less than a whole one is there. It tells whether that was the
// empty piece.
fn read_piece<L: Link>(
    alloc: Global,
    bytes: &mut Vec<u8>,
    reader: &mut Reader,
    link: &mut L,
) -> Result<bool, WorkFault>
    requires ready { L.ready link.old }
    ensures ok { IfOk result (λ done. (a : L) → Begun (Talks L.came L.sent L.given a link.old) bytes.old.items reader.old
        → Read done (Talks L.came L.sent L.given a link.new) bytes.new.items reader.new) }
    ensures turn { OnOk result (reader.old.fault ≡ None → (n : ℕ) → Reads n reader.old → Reads (n + 1) reader.new) }
    ensures err { IfErr result (λ e. (a : L) → Begun (Talks L.came L.sent L.given a link.old) bytes.old.items reader.old
        → IsRefused (Talks L.came L.sent L.given a link.new) (Parts L.sent L.given a link.new) e) }
    ensures ready { L.ready link.new }
    ensures cause { HasCause (L.faults link.old) (L.faults link.new) result WorkFault.LinkFailed WorkFault.Memory }
    ensures first { FirstFault (L.faults link.old) (L.faults link.new) result }
{
    let found = next_frame(alloc, reader)?;
    match found {
        Front::Unfinished => {
            hear(alloc, reader, link)?;
            Ok(false)
        }
        Front::Framed(message, _) => {
            let done = add_piece(bytes, piece_of(message))?;
            Ok(done)
        }
        Front::Bad(_) => Err(BAD_BOOT),
    }
}

// Reads a boot's bytes up to the empty piece.
fn read_pieces<L: Link>(
    alloc: Global,
    reader: &mut Reader,
    link: &mut L,
) -> Result<Vec<u8>, WorkFault>
    requires ready { L.ready link.old }
    requires fresh { reader.old ≡ fresh }
    ensures ok { IfOk result (λ bytes. Whole (Talks L.came L.sent L.given link.old link.new) bytes.items reader.new) }
    ensures short { OnOk result (IsShort reader.new) }
    ensures err { IfErr result (IsRefused (Talks L.came L.sent L.given link.old link.new) (Parts L.sent L.given link.old link.new)) }
    ensures ready { L.ready link.new }
    ensures cause { HasCause (L.faults link.old) (L.faults link.new) result WorkFault.LinkFailed WorkFault.Memory }
    ensures first { FirstFault (L.faults link.old) (L.faults link.new) result }
{
    let mut bytes = Vec::new(alloc);
    for _turns in 0..u64::MAX {
        let done = read_piece(alloc, &mut bytes, reader, link)?;
        if done {
            return Ok(bytes);
        }
    }
    unreachable!()
}

/// Reads a boot and makes its slave.
pub(crate) fn begin<L: Link>(
    alloc: Global,
    reader: &mut Reader,
    link: &mut L,
) -> Result<Slave, WorkFault>
    requires ready { L.ready link.old }
    requires fresh { reader.old ≡ fresh }
    ensures ok { IfOk result (λ slave. (b : BootTree) × IsSlave slave (slave_of b)
        × Working (Talks L.came L.sent L.given link.old link.new) b (slave_of b) [] reader.new) }
    ensures runs { IfOk result (λ slave. Runs 0 (IsSlave slave) reader.new) }
    ensures err { IfErr result (IsRefused (Talks L.came L.sent L.given link.old link.new) (Parts L.sent L.given link.old link.new)) }
    ensures ready { L.ready link.new }
    ensures cause { HasCause (L.faults link.old) (L.faults link.new) result WorkFault.LinkFailed WorkFault.Memory }
    ensures first { FirstFault (L.faults link.old) (L.faults link.new) result }
{
    let bytes = read_pieces(alloc, reader, link)?;
    let boot = read_boot(alloc, &bytes)?;
    let slave = Slave::new(alloc, boot)?;
    Ok(slave)
}
