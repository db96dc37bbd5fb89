// The slave over a link, from its boot to its end.
ghost use Rattle.std.specs.Prelude.{◌≡◌, ◌+◌, ℕ, [], false, IfErr, IfOk, OnOk};
ghost use Rattle.pt_base.specs.Faults.{HasCause};
ghost use Rattle.pt_core.specs.CodeTree.{BootTree};
ghost use Rattle.pair_protocol.specs.Sides.{waits};
ghost use Rattle.pair_meaning.specs.SlaveRun as s;
ghost use Rattle.slave_interp.specs.Slaves.{IsSlave};
ghost use Rattle.pair_runner.specs.Sending.{Parts, Talks};
ghost use Rattle.slave_runner.specs.Faults.{FirstFault};
ghost use Rattle.slave_runner.specs.Outcomes.{IsRefused, Stops};
ghost use Rattle.slave_runner.specs.Rules.{has_ended};
ghost use Rattle.slave_runner.specs.SoFar.{Worked, Working, WorksOn};
ghost use Rattle.slave_runner.specs.Turns.{Runs, Speaks};

use crate::beginning::begin;
use crate::fault::WorkFault;
use crate::saying::{go_on, send_waiting};
use crate::taking::take_reply;
use pt_base::Link;
use slave_interp::{Mode, Slave};
use std::alloc::Global;
use wire::Reader;

// Sends what waits, and then takes the reply that the slave waits for.
fn await_reply<L: Link>(
    alloc: Global,
    slave: &mut Slave,
    waiting: &mut Vec<u8>,
    reader: &mut Reader,
    link: &mut L,
) -> Result<(), WorkFault>
    requires ready { L.ready link.old }
    ensures ok { OnOk result ((a : L) (b : BootTree) (x : s.Slave) → IsSlave slave.old x → s.mode_of x ≡ waits → Working (Talks L.came L.sent L.given a link.old) b x waiting.old.items reader.old
        → WorksOn (Talks L.came L.sent L.given a link.new) (IsSlave slave.new) b waiting.new.items reader.new) }
    ensures turn { OnOk result ((n : ℕ) (r : Runs n (IsSlave slave.old) reader.old) → s.mode_of r.slave ≡ waits → Runs (n + 1) (IsSlave slave.new) reader.new) }
    ensures err { IfErr result (λ e. (a : L) (b : BootTree) (x : s.Slave) → IsSlave slave.old x → s.mode_of x ≡ waits → Working (Talks L.came L.sent L.given a link.old) b x waiting.old.items reader.old
        → IsRefused (Talks L.came L.sent L.given a link.new) (Parts L.sent L.given a link.new) e) }
    ensures ready { L.ready link.new }
    ensures cause { HasCause (L.faults link.old) (L.faults link.new) result WorkFault.LinkFailed WorkFault.Memory }
    ensures first { FirstFault (L.faults link.old) (L.faults link.new) result }
{
    send_waiting(alloc, waiting, link)?;
    take_reply(alloc, slave, reader, link)?;
    Ok(())
}

// The slave does what it does next, and tells whether it is over and all was sent.
fn turn<L: Link>(
    alloc: Global,
    slave: &mut Slave,
    waiting: &mut Vec<u8>,
    reader: &mut Reader,
    link: &mut L,
) -> Result<bool, WorkFault>
    requires ready { L.ready link.old }
    requires speaks { Speaks (IsSlave slave.old) }
    ensures ok { IfOk result (λ done. (a : L) (b : BootTree) (x : s.Slave) → IsSlave slave.old x → Working (Talks L.came L.sent L.given a link.old) b x waiting.old.items reader.old
        → Worked done (Talks L.came L.sent L.given a link.new) (IsSlave slave.new) b waiting.new.items reader.new) }
    ensures turn { IfOk result (λ done. done ≡ false → (n : ℕ) → Runs n (IsSlave slave.old) reader.old → Runs (n + 1) (IsSlave slave.new) reader.new) }
    ensures err { IfErr result (λ e. (a : L) (b : BootTree) (x : s.Slave) → IsSlave slave.old x → Working (Talks L.came L.sent L.given a link.old) b x waiting.old.items reader.old
        → IsRefused (Talks L.came L.sent L.given a link.new) (Parts L.sent L.given a link.new) e) }
    ensures ready { L.ready link.new }
    ensures cause { HasCause (L.faults link.old) (L.faults link.new) result WorkFault.LinkFailed WorkFault.Memory }
    ensures first { FirstFault (L.faults link.old) (L.faults link.new) result }
{
    match slave.mode() {
        Mode::Going => {
            go_on(alloc, slave, waiting, link)?;
            Ok(false)
        }
        Mode::Waits => {
            await_reply(alloc, slave, waiting, reader, link)?;
            Ok(false)
        }
        Mode::Over => {
            send_waiting(alloc, waiting, link)?;
            Ok(true)
        }
    }
}

// Runs the slave to its end. It takes fewer turns than 2^101: each hears a byte, takes a frame or makes a step.
fn run<L: Link>(
    alloc: Global,
    slave: &mut Slave,
    reader: &mut Reader,
    link: &mut L,
) -> Result<(), WorkFault>
    requires ready { L.ready link.old }
    requires runs { Runs 0 (IsSlave slave.old) reader.old }
    ensures ok { OnOk result ((a : L) (b : BootTree) (x : s.Slave) → IsSlave slave.old x → Working (Talks L.came L.sent L.given a link.old) b x [] reader.old
        → Stops (Talks L.came L.sent L.given a link.new) has_ended) }
    ensures err { IfErr result (λ e. (a : L) (b : BootTree) (x : s.Slave) → IsSlave slave.old x → Working (Talks L.came L.sent L.given a link.old) b x [] reader.old
        → IsRefused (Talks L.came L.sent L.given a link.new) (Parts L.sent L.given a link.new) e) }
    ensures ready { L.ready link.new }
    ensures cause { HasCause (L.faults link.old) (L.faults link.new) result WorkFault.LinkFailed WorkFault.Memory }
    ensures first { FirstFault (L.faults link.old) (L.faults link.new) result }
{
    let mut waiting = Vec::new(alloc);
    for _turns in 0..u128::MAX {
        let done = turn(alloc, slave, &mut waiting, reader, link)?;
        if done {
            return Ok(());
        }
    }
    unreachable!()
}

/// Reads a boot over a link and runs its slave: sends what that says, and takes the replies that it waits for, up to its last
/// message. What is sent is the spellings of all that the slave says with the replies among the bytes given, and it asks for
/// bytes only where those given leave it open and all that is said with them was sent. Bytes behind the last reply that is
/// awaited aren't looked at.
///
/// # Errors
///
/// `BadPeer` where the frames of the bytes given break a rule, and `PeerEnded` where the link ends before the boot does or
/// while a reply is awaited. `LinkFailed` comes only where the count of faults rose. `Memory` is want of memory, and with it
/// 2^63 bytes given and a boot nested too deep for `read_boot`. After these two a first part was sent. One call of the link at
/// most fails, and none where the work is done, memory is wanting or the peer is to blame.
pub fn work<L: Link>(alloc: Global, link: &mut L) -> Result<(), WorkFault>
    requires ready { L.ready link.old }
    ensures ok { OnOk result (Stops (Talks L.came L.sent L.given link.old link.new) has_ended) }
    ensures err { IfErr result (IsRefused (Talks L.came L.sent L.given link.old link.new) (Parts L.sent L.given link.old link.new)) }
    ensures ready { L.ready link.new }
    ensures cause { HasCause (L.faults link.old) (L.faults link.new) result WorkFault.LinkFailed WorkFault.Memory }
    ensures first { FirstFault (L.faults link.old) (L.faults link.new) result }
{
    let mut reader = Reader::new(alloc);
    let mut slave = begin(alloc, &mut reader, link)?;
    run(alloc, &mut slave, &mut reader, link)?;
    Ok(())
}
