// The outline of a program's text.
ghost use Rattle.std.specs.Prelude.{[], ◌∷◌, IfOk, MatchResult};
ghost use Rattle.pt_core.specs.CodeTree.{view_monitor, view_slave};
ghost use Rattle.program_halves.specs.ProgramHalves.{monitor_half, slave_half};
ghost use Rattle.typed_tree.specs.TypedView.{view_typed};
ghost use Rattle.flow_rules.specs.Faults.{IsAccepted};
ghost use Rattle.stages.specs.Climb.{alone, flows};
ghost use Rattle.stages.specs.Seen.{IsStop};
ghost use Rattle.outlining.specs.Outlines.{IsOutline, IsOutlineOf};

use crate::halves::push_halves;
use crate::starting::{push_policy, push_table};
use flow_rules::Accepted;
use program_halves::halves;
use pt_base::Watch;
use pt_core::{MonitorProgram, SlaveProgram};
use stages::{Stop, accepted, room_for};
use std::alloc::{AllocError, Global};
use std::thread::Threads;
use typed_tree::Typed;

/// The outline of a program that breaks no rule. The watch is told of each function that has a body, as its edges
/// are made and as it is lowered.
///
/// Time and memory are linear in the program, in its slots and edges, and in what is written, but for putting
/// faults in order.
///
/// # Errors
///
/// The refusal of lexer, parser, types or flows; or want of memory: more than [`MOST_BYTES`](stages::MOST_BYTES) of
/// outline are that too.
pub fn outline<R: Threads + Sync, W: Watch>(
    rt: &R,
    alloc: Global,
    program: &[u8],
    watch: &W,
) -> Result<Vec<u8>, Stop>
    ensures { MatchResult result (λ text. IsOutline (alone program.now) text.items) (IsStop (flows ∷ []) (alone program.now)) }
{
    let judged = accepted(rt, alloc, program, watch)?;
    Ok(written(rt, alloc, &judged.program, &judged.accepted, watch)?)
}

// The outline of a program that breaks no rule, by its typed tree.
fn written<R: Threads + Sync, W: Watch>(
    rt: &R,
    alloc: Global,
    t: &Typed,
    accepted: &Accepted,
    watch: &W,
) -> Result<Vec<u8>, AllocError>
    requires { IsAccepted (view_typed t.now) accepted.now }
    ensures { IfOk result (λ text. IsOutlineOf (view_typed t.now) (slave_half (view_typed t.now) accepted.now) (monitor_half (view_typed t.now) accepted.now) text.items) }
{
    let (slave, monitor) = halves(rt, alloc, t, accepted, watch)?;
    let text = outline_of(alloc, t, &slave, &monitor)?;
    Ok(text)
}

// The outline of a program of these halves.
fn outline_of(
    alloc: Global,
    t: &Typed,
    slave: &SlaveProgram,
    monitor: &MonitorProgram,
) -> Result<Vec<u8>, AllocError>
    ensures { IfOk result (λ text. IsOutlineOf (view_typed t.now) (view_slave slave.now) (view_monitor monitor.now) text.items) }
{
    let mut text = Vec::new(alloc);
    let entries = monitor.entries.as_slice();
    push_halves(alloc, t, slave, monitor, &mut text)?;
    push_table(alloc, t, &mut text)?;
    push_policy(alloc, t, entries, &mut text)?;
    room_for(text.as_slice())?;
    Ok(text)
}
