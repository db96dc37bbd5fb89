// The texts of a pair, and its run with a peer that is started.
ghost use Rattle.std.specs.Io.KnownBytes.{Appends};
ghost use Rattle.honest_link.specs.Came.{Started};
ghost use Rattle.pt_base.specs.Faults.{HasCause};
ghost use Rattle.pair_runner.specs.Faults.{FirstFault};
ghost use Rattle.pair_runner.specs.Sending.{Breaks, Moves};
ghost use Rattle.pair_texts.specs.Seen.{texts_with};
ghost use Rattle.pair_running.specs.SpawnedPairOutcomeSeen.{IsExpectedOver, IsHonestFor, IsServed};
ghost use Rattle.pair_running.specs.SpawnedPairSupervised.{AreUntouched};

use crate::spawned_pair::outcome::Outcome;
use crate::spawned_pair::running::run_pair;
use honest_link::Witnessed;
use pair_runner::RunFault;
use pair_texts::{Beside, begin};
use pt_base::{Sink, Watch};
use stages::Stop;
use std::alloc::Global;
use std::thread::Threads;
use wire::are_bytes;

/// What a program comes to with these texts beside it: the refusal of the first stage that has a fault, or how its monitor ends, which
/// serves a peer that is started, once, and sent the boot. What is written goes to `out` as it comes. Where the peer is honest, what is written and
/// the end are what is expected of the program. The watch is told of each function that has a body, as its edges are made and as it is
/// lowered.
///
/// # Errors
///
/// `BadPeer` where what the peer gave breaks a rule, and `PeerEnded` where its end comes before an end of the run. `LinkFailed`, also where
/// the peer can't be started, and `SinkFailed` come only where the count of faults rose; after these two, and after `Memory`, a first part
/// was sent and written. Of the calls of the spawner and of `out` one at most fails, and none where there is an outcome, memory is wanting
/// or the peer is to blame.
pub fn run<R: Threads + Sync, S: Witnessed, K: Sink, W: Watch>(
    rt: &R,
    alloc: Global,
    program: &[u8],
    beside: Beside<'_>,
    spawner: &mut S,
    out: &mut K,
    watch: &W,
) -> Result<Outcome, RunFault>
    ensures served { IsServed (AreUntouched spawner.old spawner.new out.old out.new)
        (Moves (Started S.starts S.came S.honest S.sent S.given) S.sent S.given K.taken spawner.old spawner.new out.old out.new) (Breaks S.sent S.given K.taken spawner.old spawner.new out.old out.new)
        (texts_with program.now beside.entry) beside.entry.turns result }
    ensures expected { IsHonestFor S.honest S.sent S.given (texts_with program.now beside.entry) beside.entry.turns spawner.old
        → IsExpectedOver (λ bytes. Appends (K.taken out.old) (K.taken out.new) bytes) (texts_with program.now beside.entry) beside.entry.turns result }
    ensures link { HasCause (S.faults spawner.old) (S.faults spawner.new) result RunFault.LinkFailed RunFault.Memory }
    ensures sink { HasCause (K.faults out.old) (K.faults out.new) result RunFault.SinkFailed RunFault.Memory }
    ensures first { FirstFault (S.faults spawner.old) (S.faults spawner.new) (K.faults out.old) (K.faults out.new) result }
{
    are_bytes(beside.input);
    match begin(rt, alloc, program, beside, watch) {
        Ok(pair) => run_pair(alloc, pair, beside.turns, spawner, out),
        Err(Stop::Refused(refusal)) => Ok(Outcome::Refused(refusal)),
        Err(Stop::Memory) => Err(RunFault::Memory),
    }
}
