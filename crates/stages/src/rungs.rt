// The single stages, as a command climbs them: each takes what the one before it gave.
ghost use Rattle.std.specs.Prelude.{◌≡◌, ◌≤◌, ◌<◌, ◌^◌, ◌∷◌, List, IfErr, IfOk, OnOk, length};
ghost use Rattle.front_end.specs.Reading.{HasTypedTree};
ghost use Rattle.flow_rules.specs.Faults.{IsAccepted};
ghost use Rattle.host_table.specs.Hosts.{hosts_of};
ghost use Rattle.host_table.specs.Whole.{HasHosts};
ghost use Rattle.policy.specs.PolicyFault.{IsPolicy};
ghost use Rattle.policy.specs.Verdicts.{start};
ghost use Rattle.typed_tree.specs.Nodes.{nodes_of};
ghost use Rattle.typed_tree.specs.TypedTree.{TypedTree, signatures_of};
ghost use Rattle.typed_tree.specs.TypedView.{view_typed};
ghost use Rattle.stages.specs.Climb.{Stage, Texts, flows, hosts, inputs, rules};
ghost use Rattle.stages.specs.GivenHosts.{GivesHosts, most};
ghost use Rattle.stages.specs.Seen.{IsHalt, IsStop};

use crate::judging::judge;
use crate::limits::INPUT_LIMIT;
use crate::refusal::{Refusal, Stop};
use flow_rules::{Accepted, FlowError};
use front_end::read_program;
use host_table::{Host, HostError, read_host};
use policy::{Policy, read_policy};
use pt_base::Watch;
use std::alloc::Global;
use std::thread::Threads;
use typed_tree::Typed;

/// A program with what its host table gives.
#[derive(Drop)]
pub struct HostedProgram {
    pub program: Typed,
    pub hosts: Host,
}

/// A program that breaks no rule of flows, with its halves and its privileged slots.
#[derive(Drop)]
pub struct AcceptedProgram {
    pub program: Typed,
    pub accepted: Accepted,
}

/// The typed tree of a program's text, which has fewer than 16,777,216 nodes.
///
/// # Errors
///
/// The refusal of lexer, parser or types; or want of memory.
pub fn typed(alloc: Global, program: &[u8]) -> Result<Typed, Stop>
    ensures tree { IfOk result (λ p. HasTypedTree program.now (view_typed p)) }
    ensures small { IfOk result (λ p. nodes_of (view_typed p) < 2 ^ 24) }
    ensures stop { (ss : List Stage) (t : Texts) → t.program ≡ program.now → IfErr result (IsStop ss t) }
{
    Ok(read_program(alloc, program)?)
}

/// The program with the hosts that its table gives.
///
/// # Errors
///
/// The refusal of the host table, which has the program; or want of memory.
pub fn hosted(alloc: Global, program: Typed, table: &[u8]) -> Result<HostedProgram, Stop>
    ensures program { IfOk result (λ h. h.program ≡ program) }
    ensures given { IfOk result (λ h. GivesHosts table.now (view_typed h.program) (hosts_of h.hosts)) }
    ensures fit { IfOk result (λ h. HasHosts (hosts_of h.hosts) (signatures_of (view_typed h.program))) }
    ensures stop { (ss : List Stage) (t : Texts) → t.host ≡ table.now → IfErr result (IsHalt (hosts ∷ ss) t (view_typed program)) }
{
    match read_host(alloc, table, &program) {
        Ok(hosts) => Ok(HostedProgram { program, hosts }),
        Err(HostError::Faults(faults)) => Err(Stop::Refused(Refusal::Host(program, faults))),
        Err(HostError::Memory) => Err(Stop::Memory),
    }
}

/// The policy of a program, at its start.
///
/// # Errors
///
/// The refusal of the policy; or want of memory.
pub fn ruled(alloc: Global, program: &Typed, policy: &[u8]) -> Result<Policy, Stop>
    ensures rules { IfOk result (λ p. IsPolicy (signatures_of (view_typed program.now)) policy.now p.rules) }
    ensures start { IfOk result (λ p. p ≡ start p.rules) }
    ensures stop { (ss : List Stage) (t : Texts) → t.policy ≡ policy.now → IfErr result (IsHalt (rules ∷ ss) t (view_typed program.now)) }
{
    Ok(read_policy(alloc, policy, program)?)
}

/// The program with its halves and its privileged slots, where it breaks no rule. The watch is told of each function
/// that has a body, as its edges are made. Time and memory are those of [`judge`](crate::judge).
///
/// # Errors
///
/// The refusal of the flows, which has the program; or want of memory.
pub fn judged<R: Threads + Sync, W: Watch>(
    rt: &R,
    alloc: Global,
    program: Typed,
    watch: &W,
) -> Result<AcceptedProgram, Stop>
    ensures program { IfOk result (λ j. j.program ≡ program) }
    ensures accepted { IfOk result (λ j. IsAccepted (view_typed j.program) j.accepted) }
    ensures stop { (ss : List Stage) (t : Texts) → IfErr result (IsHalt (flows ∷ ss) t (view_typed program)) }
{
    match judge(rt, alloc, &program, watch) {
        Ok(accepted) => Ok(AcceptedProgram { program, accepted }),
        Err(FlowError::Faults(faults)) => Err(Stop::Refused(Refusal::Flow(program, faults))),
        Err(FlowError::Memory) => Err(Stop::Memory),
    }
}

/// Whether an input is short enough.
///
/// # Errors
///
/// The refusal of the input, where it isn't.
pub fn fits(input: &[u8]) -> Result<(), Stop>
    ensures short { OnOk result (length input.now ≤ most) }
    ensures stop { (ss : List Stage) (t : Texts) (tree : TypedTree) → t.input ≡ input.now → IfErr result (IsHalt (inputs ∷ ss) t tree) }
{
    if input.len() > INPUT_LIMIT {
        return Err(Stop::Refused(Refusal::Input));
    }
    Ok(())
}
