// The halves are made of the program's lowered code.
ghost use Rattle.std.specs.Prelude.{IfOk};
ghost use Rattle.typed_tree.specs.TypedView.{view_typed};
ghost use Rattle.pt_core.specs.CodeTree.{view_monitor, view_slave};
ghost use Rattle.program_halves.specs.ProgramHalves.{AreHalves};

use flow_rules::Accepted;
use lowering_threads::lower_all;
use pt_base::Watch;
use pt_core::{MonitorProgram, SlaveProgram};
use splitter::split;
use std::alloc::{AllocError, Global};
use std::thread::Threads;
use typed_tree::Typed;

/// The slave's and the monitor's program of a program that breaks no rule. The watch is told of each
/// function that has a body, as it is lowered.
///
/// # Errors
///
/// Want of memory alone.
pub fn halves<R: Threads + Sync, W: Watch>(
    rt: &R,
    alloc: Global,
    program: &Typed,
    accepted: &Accepted,
    watch: &W,
) -> Result<(SlaveProgram, MonitorProgram), AllocError>
    ensures { IfOk result (λ r. AreHalves (view_typed program.now) accepted.now (view_slave r.0) (view_monitor r.1)) }
{
    let code = lower_all(rt, alloc, program, watch)?;
    split(alloc, program, accepted, code)
}
