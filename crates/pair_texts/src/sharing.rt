// Several pairs of one program: the stages before the input are climbed once, and that of inputs once for each.
ghost use Rattle.std.specs.Prelude.{◌≡◌, ◌≤◌, [], IfErr, IfOk, OnOk, length};
ghost use Rattle.host_table.specs.Hosts.{hosts_of};
ghost use Rattle.host_table.specs.RunHosts.{models_of};
ghost use Rattle.pt_core.specs.CodeTree.{view_boot, view_slave};
ghost use Rattle.pair_meaning.specs.Start.{boot_of};
ghost use Rattle.stages.specs.Seen.{HavePassed};
ghost use Rattle.pair_texts.specs.Several.{AreShared, AreShort, IsHaltOfOne, SharedTexts, StopOne, shared_with, with_input};

use crate::beginning::boot_with;
use crate::names::names_of;
use host_table::Host;
use policy::Policy;
use program_halves::halves;
use pt_base::{Bytes, Listed, Watch};
use pt_core::{Boot, MonitorProgram, SlaveProgram};
use stages::{GivenTexts, PassedTexts, Stop, fits, passed};
use std::alloc::{AllocError, Global};
use std::thread::Threads;

/// What several pairs of one program start from, beside their inputs.
#[derive(Drop)]
pub struct Shared {
    pub slave: SlaveProgram,
    pub monitor: MonitorProgram,
    /// The hosts of the table, without an input.
    pub hosts: Host,
    /// The policy at its start.
    pub policy: Policy,
    /// The name of each function of the program, by its number.
    pub names: Listed<Bytes>,
}

impl Shared {
    /// What the slave of the pair with this input starts from, within so many turns.
    ///
    /// # Errors
    ///
    /// Want of memory alone.
    pub fn boot(&self, alloc: Global, input: &[u8], turns: u32) -> Result<Boot, AllocError>
        ensures { IfOk result (λ boot. view_boot boot ≡ boot_of (view_slave self.now.slave) (models_of (hosts_of self.now.hosts).models) input.now turns) }
    {
        let slave = self.slave.copy(alloc)?;
        boot_with(alloc, slave, &self.hosts, input, turns)
    }
}

/// What the pairs of a program share that have these inputs, of which there is at least one. The watch is told of each
/// function that has a body, as its edges are made and as it is lowered: once, however many inputs there are.
///
/// # Errors
///
/// The faults of the first of lexer, parser, types, host table, policy, flows and inputs that has one, or want of memory.
pub fn share<R: Threads + Sync, W: Watch>(
    rt: &R,
    alloc: Global,
    given: GivenTexts<'_>,
    all: &[Bytes],
    watch: &W,
) -> Result<Shared, Stop>
    requires { 1 ≤ length all.now }
    ensures shared { IfOk result (AreShared (shared_with given.entry)) }
    ensures short { OnOk result (AreShort all.now) }
    ensures stop { IfErr result (StopOne (shared_with given.entry) all.now) }
{
    let passed = passed(rt, alloc, given, watch)?;
    all_fit(all)?;
    let shared = halved(rt, alloc, passed, watch)?;
    Ok(shared)
}

// Whether each input is short enough.
fn all_fit(all: &[Bytes]) -> Result<(), Stop>
    ensures short { OnOk result (AreShort all.now) }
    ensures stop { IfErr result (IsHaltOfOne all.now) }
{
    for input in all {
        fits(input.as_slice())?;
    }
    Ok(())
}

// What the pairs of texts share that pass the stages before the input.
fn halved<R: Threads + Sync, W: Watch>(
    rt: &R,
    alloc: Global,
    passed: PassedTexts,
    watch: &W,
) -> Result<Shared, AllocError>
    ensures { (t : SharedTexts) → HavePassed (with_input t []) passed → IfOk result (AreShared t) }
{
    let PassedTexts {
        program,
        hosts,
        policy,
        accepted,
    } = passed;
    let names = names_of(alloc, &program)?;
    let (slave, monitor) = halves(rt, alloc, &program, &accepted, watch)?;
    Ok(Shared {
        slave,
        monitor,
        hosts,
        policy,
        names,
    })
}
