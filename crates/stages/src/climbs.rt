// The climbs that more than one command makes.
ghost use Rattle.std.specs.Prelude.{◌≡◌, ◌∷◌, List, IfErr, IfOk};
ghost use Rattle.front_end.specs.Reading.{HasTypedTree};
ghost use Rattle.flow_rules.specs.Faults.{IsAccepted};
ghost use Rattle.typed_tree.specs.TypedView.{view_typed};
ghost use Rattle.stages.specs.Climb.{Stage, Texts, flows, hosts, rules};
ghost use Rattle.stages.specs.Seen.{AreGiven, HavePassed, IsStop};

use crate::refusal::Stop;
use crate::rungs::{AcceptedProgram, HostedProgram, hosted, judged, ruled, typed};
use flow_rules::Accepted;
use host_table::Host;
use policy::Policy;
use pt_base::Watch;
use std::alloc::Global;
use std::thread::Threads;
use typed_tree::Typed;

/// The texts of a program, its host table and its policy.
#[derive(Clone, Copy)]
pub struct GivenTexts<'a> {
    pub program: &'a [u8],
    pub host: &'a [u8],
    pub policy: &'a [u8],
}

/// What the stages before the input give.
#[derive(Drop)]
pub struct PassedTexts {
    pub program: Typed,
    /// The hosts of the table, without an input.
    pub hosts: Host,
    /// The policy at its start.
    pub policy: Policy,
    pub accepted: Accepted,
}

/// Lexer, parser, types and flows. The watch is told of each function that has a body, as its edges are made.
///
/// Time and memory are linear in the program, in its slots and edges and in the ways that faults show, but for putting
/// faults in order.
///
/// # Errors
///
/// The first refusal; or want of memory.
pub fn accepted<R: Threads + Sync, W: Watch>(
    rt: &R,
    alloc: Global,
    program: &[u8],
    watch: &W,
) -> Result<AcceptedProgram, Stop>
    ensures tree { IfOk result (λ j. HasTypedTree program.now (view_typed j.program)) }
    ensures accepted { IfOk result (λ j. IsAccepted (view_typed j.program) j.accepted) }
    ensures stop { (ss : List Stage) (t : Texts) → t.program ≡ program.now → IfErr result (IsStop (flows ∷ ss) t) }
{
    let program = typed(alloc, program)?;
    judged(rt, alloc, program, watch)
}

/// Lexer, parser, types, host table, policy and flows, in this order. The watch is told of each function that has a
/// body, as its edges are made.
///
/// Time and memory are linear in the texts, in the program's slots and edges and in the ways that faults show, but for
/// putting faults in order.
///
/// # Errors
///
/// The first refusal; or want of memory.
pub fn passed<R: Threads + Sync, W: Watch>(
    rt: &R,
    alloc: Global,
    given: GivenTexts<'_>,
    watch: &W,
) -> Result<PassedTexts, Stop>
    ensures passed { (t : Texts) → AreGiven t given.entry → IfOk result (HavePassed t) }
    ensures stop { (ss : List Stage) (t : Texts) → AreGiven t given.entry → IfErr result (IsStop (hosts ∷ rules ∷ flows ∷ ss) t) }
{
    let program = typed(alloc, given.program)?;
    let HostedProgram { program, hosts } = hosted(alloc, program, given.host)?;
    let policy = ruled(alloc, &program, given.policy)?;
    let AcceptedProgram { program, accepted } = judged(rt, alloc, program, watch)?;
    Ok(PassedTexts {
        program,
        hosts,
        policy,
        accepted,
    })
}
