// Texts go through lexer, parser, types, host table and input, and then their program runs.
ghost use Rattle.std.specs.Prelude.{◌≡◌, [], ◌∷◌, IfOk, MatchResult};
ghost use Rattle.front_end.specs.Reading.{HasTypedTree};
ghost use Rattle.host_table.specs.Hosts.{hosts_of};
ghost use Rattle.host_table.specs.RunHosts.{models_of};
ghost use Rattle.source_meaning.specs.WholeRun.{whole_run};
ghost use Rattle.typed_tree.specs.TypedView.{view_typed};
ghost use Rattle.stages.specs.Climb as stage;
ghost use Rattle.stages.specs.Climb.{Texts};
ghost use Rattle.stages.specs.GivenHosts.{GivesHosts};
ghost use Rattle.stages.specs.Seen.{IsHalt, IsStop};
ghost use Rattle.original.specs.MachineRunHostGates.{AreOf};
ghost use Rattle.original.specs.Original.{IsOriginal, original_texts};
ghost use Rattle.original.specs.Seen.{IsSeen, view_ran};

use crate::ran::Ran;
use host_table::Host;
use pt_base::Watch;
use stages::{HostedProgram, Stop, fits, hosted, typed};
use std::alloc::{AllocError, Global};
use std::thread::Threads;
use typed_tree::Typed;

/// The run of a program with this host table and input within this budget of turns: the bytes that its hosts write and
/// its end. The watch is told of each function that has a body, as it is lowered.
///
/// # Errors
///
/// The faults of the first of lexer, parser, types, host table and input that has one, or want of memory.
pub fn run<R: Threads + Sync, W: Watch>(
    rt: &R,
    alloc: Global,
    program: &[u8],
    host: &[u8],
    input: &[u8],
    turns: u32,
    watch: &W,
) -> Result<Ran, Stop>
    ensures { MatchResult result (λ r. IsOriginal turns (original_texts program.now host.now input.now) (view_ran r))
        (IsStop (stage.hosts ∷ stage.inputs ∷ []) (original_texts program.now host.now input.now)) }
{
    let program = typed(alloc, program)?;
    with_table(rt, alloc, program, host, input, turns, watch)
}

// The run of a program with this host table.
fn with_table<R: Threads + Sync, W: Watch>(
    rt: &R,
    alloc: Global,
    program: Typed,
    host: &[u8],
    input: &[u8],
    turns: u32,
    watch: &W,
) -> Result<Ran, Stop>
    ensures { (t : Texts) → HasTypedTree t.program (view_typed program) → t.host ≡ host.now → t.input ≡ input.now
        → MatchResult result (λ r. IsOriginal turns t (view_ran r)) (IsHalt (stage.hosts ∷ stage.inputs ∷ []) t (view_typed program)) }
{
    let HostedProgram { program, hosts } = hosted(alloc, program, host)?;
    with_input(rt, alloc, &program, hosts, input, turns, watch)
}

// The run of a program whose table gives these hosts.
fn with_input<R: Threads + Sync, W: Watch>(
    rt: &R,
    alloc: Global,
    program: &Typed,
    hosts: Host,
    input: &[u8],
    turns: u32,
    watch: &W,
) -> Result<Ran, Stop>
    requires { AreOf (view_typed program.now) (hosts_of hosts) }
    ensures { (t : Texts) → HasTypedTree t.program (view_typed program.now) → GivesHosts t.host (view_typed program.now) (hosts_of hosts) → t.input ≡ input.now
        → MatchResult result (λ r. IsOriginal turns t (view_ran r)) (IsHalt (stage.hosts ∷ stage.inputs ∷ []) t (view_typed program.now)) }
{
    fits(input)?;
    let ran = with_hosts(rt, alloc, program, hosts, input, turns, watch)?;
    Ok(ran)
}

// The run of a program with these hosts, which are given the input.
fn with_hosts<R: Threads + Sync, W: Watch>(
    rt: &R,
    alloc: Global,
    program: &Typed,
    hosts: Host,
    input: &[u8],
    turns: u32,
    watch: &W,
) -> Result<Ran, AllocError>
    requires { AreOf (view_typed program.now) (hosts_of hosts) }
    ensures { IfOk result (IsSeen (whole_run (view_typed program.now) (models_of (hosts_of hosts).models) input.now turns)) }
{
    let mut hosts = hosts;
    hosts.give(alloc, input)?;
    let ran = crate::machine_run::run(rt, alloc, program, hosts, turns, watch)?;
    Ok(Ran {
        written: ran.written,
        end: ran.end,
    })
}
