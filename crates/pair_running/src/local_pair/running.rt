// The run of both halves.
ghost use Rattle.std.specs.Prelude.{◌≡◌, ◌<◌, ◌≤◌, All, IfOk, IsTrue};
ghost use Rattle.host_models.specs.Fitting.{fits};
ghost use Rattle.host_table.specs.Hosts.{hosts_of};
ghost use Rattle.host_table.specs.RunHosts.{models_of};
ghost use Rattle.pair_meaning.specs.Monitors as m;
ghost use Rattle.pair_meaning.specs.SlaveRun as s;
ghost use Rattle.pair_runner.specs.declared.fault.RunFault.TheVariants.{Memory};
ghost use Rattle.pair_texts.specs.Start.{Texts};
ghost use Rattle.pt_core.specs.CodeTree.{view_boot, view_monitor};
ghost use Rattle.pt_core.specs.WellFormed.{is_well_formed_boot, is_well_formed_monitor};
ghost use Rattle.pair_laws.specs.BegunPairsLaws.{HostsServe};
ghost use Rattle.pair_running.specs.LocalPairLocal.{IsPairRun};
ghost use Rattle.pair_running.specs.LocalPairOutcomeSeen.{view_ran};
ghost use Rattle.pair_running.specs.LocalPairRunning.{AreTextsOf, BeginsAs, HaveRun, StandAt};
ghost use Rattle.pair_running.specs.LocalPairWhole.{HasWhole};

use crate::local_pair::ran::Ran;
use crate::local_pair::sink::Written;
use crate::memory_talks::{talks_are_whole, talks_end};
use boots::boot_bytes;
use memory_link::MemoryLink;
use monitor_interp::Monitor;
use pair_laws::begun_pairs::{
    begun_boots_are_well_formed, begun_monitors_are_well_formed, begun_monitors_hosts_serve,
    begun_pairs_are_expected,
};
use pair_runner::{RunFault, supervise};
use pair_texts::Pair;
use pt_base::{Bytes, Chooser, End, Listed};
use slave_interp::Slave;
use std::alloc::{AllocError, Global};
use wire::are_bytes;

/// Both halves where they begin, the bytes of the slave's boot, and the names of the program's functions.
#[derive(Drop)]
pub(crate) struct Begun {
    boot: Vec<u8>,
    slave: Slave,
    monitor: Monitor,
    names: Listed<Bytes>,
}

// Both halves of a pair. The boot is spelled before the slave takes it.
fn begin(alloc: Global, pair: Pair, turns: u32) -> Result<Begun, AllocError>
    requires boot { IsTrue (is_well_formed_boot fits (view_boot pair.boot)) }
    requires monitor { IsTrue (is_well_formed_monitor (view_monitor pair.monitor)) }
    requires hosts { HostsServe (view_monitor pair.monitor) (models_of (hosts_of pair.hosts).models) }
    requires bytes { All (λ b. b < 256) (hosts_of pair.hosts).input }
    ensures { IfOk result (BeginsAs pair turns) }
{
    let boot = boot_bytes(alloc, &pair.boot)?;
    let slave = Slave::new(alloc, pair.boot)?;
    let monitor = Monitor::new(alloc, pair.monitor, pair.hosts, pair.policy, turns)?;
    Ok(Begun {
        boot,
        slave,
        monitor,
        names: pair.names,
    })
}

// Why a run broke off that nothing else breaks off.
fn wanting(fault: RunFault) -> AllocError
    requires { fault ≡ Memory }
{
    match fault {
        RunFault::Memory => AllocError,
        RunFault::LinkFailed
        | RunFault::SinkFailed
        | RunFault::BadPeer { .. }
        | RunFault::PeerEnded => unreachable!(),
    }
}

// What both halves write, and how they end. A link in memory and a sink in memory have no faults, and the slave of a pair that comes to
// an end breaks no rule and ends no talk before.
fn converse<C: Chooser>(
    alloc: Global,
    boot: &[u8],
    slave: Slave,
    monitor: Monitor,
    window: u32,
    chooser: &mut C,
) -> Result<(Vec<u8>, End), AllocError>
    requires window { 1 ≤ window }
    requires stand { (x : s.Slave) × (m : m.Monitor) × StandAt slave monitor window x m }
    ensures { (x : s.Slave) (m : m.Monitor) → StandAt slave monitor window x m
        → IfOk result (λ r. HaveRun x m window (C.answers chooser.old) (C.answers chooser.new) r.0.items r.1) }
{
    talks_are_whole();
    talks_end();
    are_bytes(boot);
    let mut monitor = monitor;
    let mut link = MemoryLink::new(alloc, slave, window, chooser);
    let mut sink = Written::new(alloc);
    match supervise(alloc, &mut monitor, boot, &mut link, &mut sink) {
        Ok(end) => {
            let _chooser = link.into_chooser();
            Ok((sink.into_vec(), end))
        }
        Err(fault) => Err(wanting(fault)),
    }
}

/// What a pair comes to that begins: what is written, and how it ends.
pub(crate) fn run_pair<C: Chooser>(
    alloc: Global,
    pair: Pair,
    turns: u32,
    window: u32,
    chooser: &mut C,
) -> Result<Ran, AllocError>
    requires window { 1 ≤ window }
    requires texts { (t : Texts) × AreTextsOf pair turns t }
    ensures outcome { (t : Texts) → AreTextsOf pair turns t → IfOk result (λ r. IsPairRun turns t (view_ran r)) }
    ensures whole { (t : Texts) → AreTextsOf pair turns t → IfOk result (λ r. HasWhole t turns window (C.answers chooser.old) (C.answers chooser.new) r.written.items) }
{
    begun_boots_are_well_formed();
    begun_monitors_are_well_formed();
    begun_monitors_hosts_serve();
    begun_pairs_are_expected();
    let Begun {
        boot,
        slave,
        monitor,
        names,
    } = begin(alloc, pair, turns)?;
    let (written, end) = converse(alloc, &boot, slave, monitor, window, chooser)?;
    Ok(Ran {
        written,
        end,
        names,
    })
}
