// What the slave says, gathered and sent.
ghost use Rattle.std.specs.Prelude.{◌≡◌, ◌++◌, [], IfErr, OnErr, OnOk};
ghost use Rattle.pt_base.specs.Faults.{HasCause};
ghost use Rattle.wire.specs.Limits.{KeepsLimits};
ghost use Rattle.wire.specs.Spelling.{spelling};
ghost use Rattle.pair_meaning.specs.SlaveRun as s;
ghost use Rattle.slave_interp.specs.Slaves.{IsSlave};
ghost use Rattle.pair_runner.specs.Sending.{Parts, Talks};
ghost use Rattle.slave_runner.specs.Faults.{FirstFault, Stuck};
ghost use Rattle.slave_runner.specs.Saying.{BrokeOff, Gathered, WentOn, sending};
ghost use Rattle.slave_runner.specs.Turns.{Speaks};

use crate::fault::WorkFault;
use pt_base::{Link, LinkFault};
use slave_interp::{Ran, Slave};
use std::alloc::Global;
use wire::{Message, write_message};

/// So many bytes may wait: where there are as many they are sent, whether or not a reply is awaited.
const MOST_GATHERED: usize = 65_536;

/// Sends what waits, if there is anything.
pub(crate) fn send_waiting<L: Link>(
    alloc: Global,
    waiting: &mut Vec<u8>,
    link: &mut L,
) -> Result<(), LinkFault>
    requires ready { L.ready link.old }
    ensures ok { OnOk result (Talks L.came L.sent L.given link.old link.new (sending waiting.old.items)) }
    ensures none { OnOk result (waiting.new.items ≡ []) }
    ensures err { OnErr result (Parts L.sent L.given link.old link.new [] waiting.old.items) }
    ensures ready { L.ready link.new }
    ensures cause { HasCause (L.faults link.old) (L.faults link.new) result LinkFault.Failed LinkFault.Memory }
{
    if waiting.is_empty() {
        return Ok(());
    }
    link.send(alloc, waiting)?;
    waiting.clear();
    Ok(())
}

// Adds a message to what waits, and sends all that where it is much.
fn gather<L: Link>(
    alloc: Global,
    message: &Message,
    waiting: &mut Vec<u8>,
    link: &mut L,
) -> Result<(), WorkFault>
    requires ready { L.ready link.old }
    requires keeps { KeepsLimits message.now }
    ensures ok { OnOk result (Gathered (Talks L.came L.sent L.given link.old link.new) (waiting.old.items ++ spelling message.now) waiting.new.items) }
    ensures err { IfErr result (λ e. Stuck e (Parts L.sent L.given link.old link.new [] (waiting.old.items ++ spelling message.now))) }
    ensures ready { L.ready link.new }
    ensures cause { HasCause (L.faults link.old) (L.faults link.new) result WorkFault.LinkFailed WorkFault.Memory }
    ensures first { FirstFault (L.faults link.old) (L.faults link.new) result }
{
    write_message(alloc, message, waiting)?;
    if waiting.len() < MOST_GATHERED {
        return Ok(());
    }
    send_waiting(alloc, waiting, link)?;
    Ok(())
}

/// The slave goes on up to where it says something, waits or is over.
pub(crate) fn go_on<L: Link>(
    alloc: Global,
    slave: &mut Slave,
    waiting: &mut Vec<u8>,
    link: &mut L,
) -> Result<(), WorkFault>
    requires ready { L.ready link.old }
    requires speaks { Speaks (IsSlave slave.old) }
    ensures ok { OnOk result ((x : s.Slave) → IsSlave slave.old x
        → WentOn (Talks L.came L.sent L.given link.old link.new) (IsSlave slave.new) x waiting.old.items waiting.new.items) }
    ensures err { IfErr result (λ e. (x : s.Slave) → IsSlave slave.old x
        → Stuck e (BrokeOff (Parts L.sent L.given link.old link.new []) x waiting.old.items)) }
    ensures ready { L.ready link.new }
    ensures cause { HasCause (L.faults link.old) (L.faults link.new) result WorkFault.LinkFailed WorkFault.Memory }
    ensures first { FirstFault (L.faults link.old) (L.faults link.new) result }
{
    let Ran { said, made: _ } = slave.run(alloc, u64::MAX)?;
    let Some(message) = said else {
        return Ok(());
    };
    gather(alloc, &message, waiting, link)?;
    Ok(())
}
