// The texts of a pair go through lexer, parser, types, host table, policy, flows and input, and then the program is
// lowered and split.
ghost use Rattle.std.specs.Prelude.{◌≡◌, ◌≤◌, IfOk, MatchResult, length};
ghost use Rattle.host_table.specs.Hosts.{hosts_of};
ghost use Rattle.host_table.specs.RunHosts.{models_of};
ghost use Rattle.typed_tree.specs.TypedView.{view_typed};
ghost use Rattle.pt_core.specs.CodeTree.{view_boot, view_monitor, view_slave};
ghost use Rattle.pair_meaning.specs.Start.{boot_of};
ghost use Rattle.stages.specs.Climb.{Texts, of_pair};
ghost use Rattle.stages.specs.GivenHosts.{most};
ghost use Rattle.stages.specs.Seen.{HavePassed, IsStop};
ghost use Rattle.pair_texts.specs.Seen.{AreParts, HasPair, IsMadeOf, texts_with};

use crate::models::{input_for, models_for};
use crate::names::names_of;
use crate::pair::Pair;
use flow_rules::Accepted;
use host_table::Host;
use policy::Policy;
use program_halves::halves;
use pt_base::Watch;
use pt_core::{Boot, MonitorProgram, SlaveProgram};
use splitter::make_boot;
use stages::{GivenTexts, PassedTexts, Stop, fits, passed};
use std::alloc::{AllocError, Global};
use std::thread::Threads;
use typed_tree::Typed;

/// What the texts of a pair are, beside the program's.
#[derive(Clone, Copy)]
pub struct Beside<'a> {
    pub host: &'a [u8],
    pub policy: &'a [u8],
    pub input: &'a [u8],
    /// How many turns the run has.
    pub turns: u32,
}

/// What the slave and the monitor of a program with these texts beside it start from. The watch is told of each
/// function that has a body, as its edges are made and as it is lowered.
///
/// # Errors
///
/// The faults of the first of lexer, parser, types, host table, policy, flows and input that has one, or want of memory.
pub fn begin<R: Threads + Sync, W: Watch>(
    rt: &R,
    alloc: Global,
    program: &[u8],
    beside: Beside<'_>,
    watch: &W,
) -> Result<Pair, Stop>
    ensures { MatchResult result (HasPair (texts_with program.now beside.entry) beside.entry.turns) (IsStop of_pair (texts_with program.now beside.entry)) }
{
    let given = GivenTexts {
        program,
        host: beside.host,
        policy: beside.policy,
    };
    let passed = passed(rt, alloc, given, watch)?;
    with_input(rt, alloc, passed, beside, watch)
}

// The pair of texts whose input is still to be looked at.
fn with_input<R: Threads + Sync, W: Watch>(
    rt: &R,
    alloc: Global,
    passed: PassedTexts,
    beside: Beside<'_>,
    watch: &W,
) -> Result<Pair, Stop>
    ensures { (t : Texts) → HavePassed t passed → t.input ≡ beside.entry.input.now → MatchResult result (HasPair t beside.entry.turns) (IsStop of_pair t) }
{
    fits(beside.input)?;
    let pair = started(rt, alloc, passed, beside, watch)?;
    Ok(pair)
}

// The pair of texts that pass all stages.
fn started<R: Threads + Sync, W: Watch>(
    rt: &R,
    alloc: Global,
    passed: PassedTexts,
    beside: Beside<'_>,
    watch: &W,
) -> Result<Pair, AllocError>
    requires { length beside.input.now ≤ most }
    ensures { (t : Texts) → HavePassed t passed → t.input ≡ beside.entry.input.now → IfOk result (HasPair t beside.entry.turns) }
{
    let PassedTexts {
        program,
        hosts,
        policy,
        accepted,
    } = passed;
    with_halves(rt, alloc, &program, &accepted, hosts, policy, beside, watch)
}

// The halves of a program that breaks no rule, with these hosts, which are given the input, and this policy.
fn with_halves<R: Threads + Sync, W: Watch>(
    rt: &R,
    alloc: Global,
    program: &Typed,
    accepted: &Accepted,
    hosts: Host,
    policy: Policy,
    beside: Beside<'_>,
    watch: &W,
) -> Result<Pair, AllocError>
    ensures { IfOk result (IsMadeOf (view_typed program.now) accepted.now (hosts_of hosts) policy beside.entry.input.now beside.entry.turns) }
{
    let mut hosts = hosts;
    hosts.give(alloc, beside.input)?;
    let names = names_of(alloc, program)?;
    let (boot, monitor) = parts(rt, alloc, program, accepted, &hosts, beside, watch)?;
    Ok(Pair {
        boot,
        monitor,
        hosts,
        policy,
        names,
    })
}

// What the slave starts from, and the monitor's program.
fn parts<R: Threads + Sync, W: Watch>(
    rt: &R,
    alloc: Global,
    program: &Typed,
    accepted: &Accepted,
    hosts: &Host,
    beside: Beside<'_>,
    watch: &W,
) -> Result<(Boot, MonitorProgram), AllocError>
    ensures { IfOk result (λ r. AreParts (view_typed program.now) accepted.now (hosts_of hosts.now) beside.entry.input.now beside.entry.turns (view_boot r.0) (view_monitor r.1)) }
{
    let (slave, monitor) = halves(rt, alloc, program, accepted, watch)?;
    let boot = boot_with(alloc, slave, hosts, beside.input, beside.turns)?;
    Ok((boot, monitor))
}

/// What the slave starts from.
pub(crate) fn boot_with(
    alloc: Global,
    slave: SlaveProgram,
    hosts: &Host,
    input: &[u8],
    turns: u32,
) -> Result<Boot, AllocError>
    ensures { IfOk result (λ boot. view_boot boot ≡ boot_of (view_slave slave) (models_of (hosts_of hosts.now).models) input.now turns) }
{
    let models = models_for(alloc, hosts, slave.hosts.as_slice())?;
    let input = input_for(alloc, models.as_slice(), input)?;
    Ok(make_boot(slave, models, input, turns))
}
