// The audit of a program's text.
ghost use Rattle.std.specs.Prelude.{[], ◌∷◌, IfOk, IsTrue, MatchResult};
ghost use Rattle.pt_core.specs.CodeTree.{view_monitor};
ghost use Rattle.pt_core.specs.WellFormed.{is_well_formed_monitor};
ghost use Rattle.program_halves.specs.ProgramHalves.{monitor_half};
ghost use Rattle.typed_tree.specs.TypedView.{view_typed};
ghost use Rattle.flow_rules.specs.Faults.{IsAccepted};
ghost use Rattle.stages.specs.Climb.{alone, flows};
ghost use Rattle.stages.specs.Seen.{IsStop};
ghost use Rattle.auditing.specs.Audits.{IsAudit, IsAuditOf};

use crate::lines::audit_lines;
use crate::verdicts::verdicts;
use flow_rules::Accepted;
use program_halves::halves;
use pt_base::Watch;
use pt_core::MonitorProgram;
use split_law::{accepted_programs_share_nothing, monitors_are_well_formed};
use stages::{Stop, accepted};
use std::alloc::{AllocError, Global};
use std::thread::Threads;
use typed_tree::Typed;

/// The audit of a program that breaks no rule: a line `independent NAME` or `dependent NAME` for each function that is
/// marked `priv` and `declassify`, has a body and gives a number, in the order of the functions. The watch is told of
/// each function that has a body, as its edges are made and as it is lowered, and of each of the monitor's, as its
/// label edges are made.
///
/// Time and memory are linear in the program, in its slots and edges, in the monitor's nodes and label edges and in
/// what is written, but for putting faults in order and for searches by halves.
///
/// # Errors
///
/// The refusal of lexer, parser, types or flows; or want of memory.
pub fn audit<R: Threads + Sync, W: Watch>(
    rt: &R,
    alloc: Global,
    program: &[u8],
    watch: &W,
) -> Result<Vec<u8>, Stop>
    ensures { MatchResult result (λ text. IsAudit (alone program.now) text.items) (IsStop (flows ∷ []) (alone program.now)) }
{
    let judged = accepted(rt, alloc, program, watch)?;
    Ok(written(rt, alloc, &judged.program, &judged.accepted, watch)?)
}

// The audit of a program that breaks no rule, by its typed tree.
fn written<R: Threads + Sync, W: Watch>(
    rt: &R,
    alloc: Global,
    t: &Typed,
    accepted: &Accepted,
    watch: &W,
) -> Result<Vec<u8>, AllocError>
    requires { IsAccepted (view_typed t.now) accepted.now }
    ensures { IfOk result (λ text. IsAuditOf (view_typed t.now) (monitor_half (view_typed t.now) accepted.now) text.items) }
{
    accepted_programs_share_nothing();
    monitors_are_well_formed();
    let (slave, monitor) = halves(rt, alloc, t, accepted, watch)?;
    drop(slave);
    let text = audit_of(rt, alloc, t, &monitor, watch)?;
    Ok(text)
}

// The audit of a program with this monitor.
fn audit_of<R: Threads + Sync, W: Watch>(
    rt: &R,
    alloc: Global,
    t: &Typed,
    monitor: &MonitorProgram,
    watch: &W,
) -> Result<Vec<u8>, AllocError>
    requires well_formed { IsTrue (is_well_formed_monitor (view_monitor monitor.now)) }
    ensures { IfOk result (λ text. IsAuditOf (view_typed t.now) (view_monitor monitor.now) text.items) }
{
    let found = verdicts(rt, alloc, monitor, watch)?;
    let text = audit_lines(alloc, t, found.as_slice())?;
    Ok(text)
}
