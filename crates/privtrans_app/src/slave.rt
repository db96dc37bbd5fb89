// The slave, as the process that a run starts: what it is to run comes over the link to its parent.
ghost use Rattle.std.specs.Prelude.{◌≡◌, ◌≤◌};
ghost use Rattle.pt_base.specs.Faults.{Rose};
ghost use Rattle.privtrans_app.specs.Ending.{link_fault, status_of};
ghost use Rattle.privtrans_app.specs.EndingSeen.{ending_seen};
ghost use Rattle.privtrans_app.specs.Interleaving.{IsOfNoRun};
ghost use Rattle.privtrans_app.specs.Once.{FailsOnce};
ghost use Rattle.privtrans_app.specs.SlaveRun.{IsWorkOver, ending_of};

use crate::ending::{Ending, Report};
use pt_base::{LinkFault, Spawner};
use slave_runner::{WorkFault, work};
use std::alloc::Global;

// How the slave's work ends the call.
fn ended_by<'a>(answer: Result<(), WorkFault>) -> Ending<'a>
    ensures { ending_seen result ≡ ending_of answer }
{
    match answer {
        Ok(()) => Ending::Told(Report::Nothing),
        Err(WorkFault::LinkFailed) => Ending::LinkFault,
        Err(WorkFault::BadPeer { rule, offset }) => Ending::BadPeer { rule, offset },
        Err(WorkFault::PeerEnded) => Ending::PeerEnded,
        Err(WorkFault::Memory) => Ending::Memory,
    }
}

/// Does the slave's work over the link that the spawner inherits.
pub(crate) fn slave<'a, S: Spawner>(alloc: Global, spawner: &mut S) -> Ending<'a>
    ensures ending { IsWorkOver S.inherits S.came S.sent S.given spawner.old spawner.new (ending_seen result) }
    ensures link { ending_seen result ≡ link_fault → Rose (S.faults spawner.old) (S.faults spawner.new) }
    ensures busy { IsOfNoRun (status_of (ending_seen result)) → ⊥ }
    ensures later { S.faults spawner.old ≤ S.faults spawner.new }
    ensures once { FailsOnce (S.faults spawner.old) (S.faults spawner.new) (status_of (ending_seen result)) }
{
    match spawner.inherit(alloc) {
        Ok(()) => ended_by(work(alloc, spawner)),
        Err(LinkFault::Failed) => Ending::LinkFault,
        Err(LinkFault::Memory) => Ending::Memory,
    }
}
