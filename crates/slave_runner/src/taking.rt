// The replies that the slave waits for.
ghost use Rattle.std.specs.Prelude.{◌≡◌, ◌≢◌, ◌+◌, ℕ, [], IfErr, OnOk};
ghost use Rattle.pt_base.specs.Faults.{HasCause};
ghost use Rattle.pt_core.specs.CodeTree.{BootTree};
ghost use Rattle.pair_protocol.specs.Sides.{waits};
ghost use Rattle.pair_meaning.specs.SlaveRun as s;
ghost use Rattle.slave_interp.specs.Slaves.{IsSlave};
ghost use Rattle.pair_runner.specs.Sending.{Parts, Talks};
ghost use Rattle.slave_runner.specs.Faults.{FirstFault};
ghost use Rattle.slave_runner.specs.Outcomes.{IsRefused};
ghost use Rattle.slave_runner.specs.Replies.{reply_of};
ghost use Rattle.slave_runner.specs.SoFar.{Working, WorksOn};
ghost use Rattle.slave_runner.specs.Taking.{Taken};
ghost use Rattle.slave_runner.specs.Turns.{Runs};
ghost use Rattle.slave_runner.specs.declared.fault.WorkFault.TheVariants.{BadPeer};

use crate::fault::WorkFault;
use crate::hearing::{Front, hear, next_frame};
use marshalling::BadReply;
use pt_base::Link;
use slave_interp::Slave;
use std::alloc::Global;
use wire::{Message, Reader, ReplyBody};

// What answers a call has to be a reply that the call can have.
fn bad_reply(offset: u64) -> WorkFault
    ensures { result ≡ BadPeer 12 offset }
{
    WorkFault::BadPeer { rule: 12, offset }
}

// The reply that a message is.
fn reply_in(message: Message) -> Option<ReplyBody>
    ensures { result ≡ reply_of message }
{
    match message {
        Message::Reply(body) => Some(body),
        Message::Boot(_)
        | Message::Call { .. }
        | Message::Emit { .. }
        | Message::Exit { .. }
        | Message::Trap { .. }
        | Message::Park { .. } => None,
    }
}

// The slave takes what a frame at this place answers.
fn take(
    alloc: Global,
    slave: &mut Slave,
    reply: Option<ReplyBody>,
    place: u64,
) -> Result<(), WorkFault>
    ensures taken { (x : s.Slave) → IsSlave slave.old x → Taken x reply place (IsSlave slave.new) result }
    ensures link { IfErr result (λ e. e ≢ WorkFault.LinkFailed) }
{
    let Some(reply) = reply else {
        return Err(bad_reply(place));
    };
    match slave.take(alloc, &reply) {
        Ok(()) => Ok(()),
        Err(BadReply::Shape) => Err(bad_reply(place)),
        Err(BadReply::Memory) => Err(WorkFault::Memory),
    }
}

/// Takes the frame at the front as the reply that the slave waits for, or asks for more bytes where less than a whole one is
/// there.
pub(crate) fn take_reply<L: Link>(
    alloc: Global,
    slave: &mut Slave,
    reader: &mut Reader,
    link: &mut L,
) -> Result<(), WorkFault>
    requires ready { L.ready link.old }
    ensures ok { OnOk result ((a : L) (b : BootTree) (x : s.Slave) → IsSlave slave.old x → s.mode_of x ≡ waits → Working (Talks L.came L.sent L.given a link.old) b x [] reader.old
        → WorksOn (Talks L.came L.sent L.given a link.new) (IsSlave slave.new) b [] reader.new) }
    ensures turn { OnOk result ((n : ℕ) (r : Runs n (IsSlave slave.old) reader.old) → s.mode_of r.slave ≡ waits → Runs (n + 1) (IsSlave slave.new) reader.new) }
    ensures err { IfErr result (λ e. (a : L) (b : BootTree) (x : s.Slave) → IsSlave slave.old x → s.mode_of x ≡ waits → Working (Talks L.came L.sent L.given a link.old) b x [] reader.old
        → IsRefused (Talks L.came L.sent L.given a link.new) (Parts L.sent L.given a link.new) e) }
    ensures ready { L.ready link.new }
    ensures cause { HasCause (L.faults link.old) (L.faults link.new) result WorkFault.LinkFailed WorkFault.Memory }
    ensures first { FirstFault (L.faults link.old) (L.faults link.new) result }
{
    let found = next_frame(alloc, reader)?;
    match found {
        Front::Unfinished => {
            hear(alloc, reader, link)?;
            Ok(())
        }
        Front::Framed(message, place) => {
            take(alloc, slave, reply_in(message), place)?;
            Ok(())
        }
        Front::Bad(place) => Err(bad_reply(place)),
    }
}
