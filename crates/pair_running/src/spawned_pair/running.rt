// The run of the monitor with a peer that is started.
ghost use Rattle.std.specs.Prelude.{◌<◌, All, IfOk, IsTrue};
ghost use Rattle.host_table.specs.Hosts.{hosts_of};
ghost use Rattle.host_table.specs.RunHosts.{models_of};
ghost use Rattle.monitor_interp.specs.Monitors.{IsMonitor};
ghost use Rattle.pair_meaning.specs.Monitors as m;
ghost use Rattle.pair_runner.specs.Faults.{FirstFault};
ghost use Rattle.pair_runner.specs.Outcomes.{IsOutcome, behind_boot, broken_behind_boot};
ghost use Rattle.pair_runner.specs.Sending.{Breaks, Moves};
ghost use Rattle.pair_texts.specs.Start.{Texts};
ghost use Rattle.pair_running.specs.HonestTalksLaws.{HostsServe};
ghost use Rattle.pt_base.specs.Faults.{HasCause};
ghost use Rattle.pt_core.specs.CodeTree.{view_monitor};
ghost use Rattle.pt_core.specs.WellFormed.{is_well_formed_monitor};
ghost use Rattle.std.specs.Io.KnownBytes.{Appends};
ghost use Rattle.honest_link.specs.Came.{Started};
ghost use Rattle.pair_running.specs.SpawnedPairOutcomeSeen.{IsExpectedOver, IsHonestFor, IsServed};
ghost use Rattle.pair_running.specs.SpawnedPairRunning.{BeginsAs};
ghost use Rattle.pair_running.specs.SpawnedPairSupervised.{AreUntouched};
ghost use Rattle.pair_running.specs.LocalPairRunning.{AreTextsOf};

use crate::honest_talks::{
    begun_monitors_are_well_formed, begun_monitors_hosts_serve, begun_pairs_are_fair,
    honest_talks_are_expected,
};
use crate::spawned_pair::outcome::Outcome;
use boots::boot_bytes;
use honest_link::Witnessed;
use monitor_interp::Monitor;
use pair_runner::{RunFault, supervise};
use pair_texts::Pair;
use pt_base::{Bytes, End, Listed, Sink};
use std::alloc::{AllocError, Global};

/// A monitor where it begins, the bytes of the boot, and the names of the program's functions.
#[derive(Drop)]
pub(crate) struct Begun {
    boot: Vec<u8>,
    monitor: Monitor,
    names: Listed<Bytes>,
}

// What the monitor of a pair begins with.
fn begin(alloc: Global, pair: Pair, turns: u32) -> Result<Begun, AllocError>
    requires monitor { IsTrue (is_well_formed_monitor (view_monitor pair.monitor)) }
    requires hosts { HostsServe (view_monitor pair.monitor) (models_of (hosts_of pair.hosts).models) }
    requires bytes { All (λ b. b < 256) (hosts_of pair.hosts).input }
    ensures { IfOk result (BeginsAs pair turns) }
{
    let boot = boot_bytes(alloc, &pair.boot)?;
    let monitor = Monitor::new(alloc, pair.monitor, pair.hosts, pair.policy, turns)?;
    Ok(Begun {
        boot,
        monitor,
        names: pair.names,
    })
}

// Starts the peer and supervises it.
fn start_peer<S: Witnessed, K: Sink>(
    alloc: Global,
    monitor: Monitor,
    boot: &[u8],
    spawner: &mut S,
    out: &mut K,
) -> Result<End, RunFault>
    requires monitor { (m : m.Monitor) × IsMonitor monitor m }
    ensures outcome { (m : m.Monitor) → IsMonitor monitor m
        → IsOutcome (behind_boot (Moves (Started S.starts S.came S.honest S.sent S.given) S.sent S.given K.taken spawner.old spawner.new out.old out.new) boot.now)
        (broken_behind_boot (Breaks S.sent S.given K.taken spawner.old spawner.new out.old out.new) boot.now) m result }
    ensures link { HasCause (S.faults spawner.old) (S.faults spawner.new) result RunFault.LinkFailed RunFault.Memory }
    ensures sink { HasCause (K.faults out.old) (K.faults out.new) result RunFault.SinkFailed RunFault.Memory }
    ensures first { FirstFault (S.faults spawner.old) (S.faults spawner.new) (K.faults out.old) (K.faults out.new) result }
{
    spawner.start(alloc)?;
    let mut monitor = monitor;
    let end = supervise(alloc, &mut monitor, boot, spawner, out)?;
    Ok(end)
}

/// What a pair comes to that begins: its peer is started and supervised.
pub(crate) fn run_pair<S: Witnessed, K: Sink>(
    alloc: Global,
    pair: Pair,
    turns: u32,
    spawner: &mut S,
    out: &mut K,
) -> Result<Outcome, RunFault>
    requires texts { (t : Texts) × AreTextsOf pair turns t }
    ensures served { (t : Texts) → AreTextsOf pair turns t
        → IsServed (AreUntouched spawner.old spawner.new out.old out.new)
        (Moves (Started S.starts S.came S.honest S.sent S.given) S.sent S.given K.taken spawner.old spawner.new out.old out.new) (Breaks S.sent S.given K.taken spawner.old spawner.new out.old out.new)
        t turns result }
    ensures expected { (t : Texts) → AreTextsOf pair turns t → IsHonestFor S.honest S.sent S.given t turns spawner.old
        → IsExpectedOver (λ bytes. Appends (K.taken out.old) (K.taken out.new) bytes) t turns result }
    ensures link { HasCause (S.faults spawner.old) (S.faults spawner.new) result RunFault.LinkFailed RunFault.Memory }
    ensures sink { HasCause (K.faults out.old) (K.faults out.new) result RunFault.SinkFailed RunFault.Memory }
    ensures first { FirstFault (S.faults spawner.old) (S.faults spawner.new) (K.faults out.old) (K.faults out.new) result }
{
    begun_monitors_are_well_formed();
    begun_monitors_hosts_serve();
    begun_pairs_are_fair();
    honest_talks_are_expected();
    let Begun {
        boot,
        monitor,
        names,
    } = begin(alloc, pair, turns)?;
    let end = start_peer(alloc, monitor, &boot, spawner, out)?;
    Ok(Outcome::Ran { end, names })
}
