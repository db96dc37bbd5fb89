// A program's text is checked.
ghost use Rattle.std.specs.Prelude.{[], ◌∷◌, MatchResult};
ghost use Rattle.stages.specs.Climb.{alone, flows};
ghost use Rattle.stages.specs.Seen.{IsStop};
ghost use Rattle.flow_check.specs.Checked.{IsChecked};

use crate::slot_lines::slot_lines;
use pt_base::Watch;
use stages::{Stop, accepted};
use std::alloc::Global;
use std::thread::Threads;

/// The lines of a program's privileged variables, where it breaks no rule of flows. The watch is told of each function
/// that has a body, as its edges are made.
///
/// Time and memory are linear in the program, in its slots and edges, and in what is written, but for
/// putting slots and faults in order.
///
/// # Errors
///
/// The refusal of lexer, parser, types or flows; or want of memory: more than [`MOST_BYTES`](stages::MOST_BYTES) of
/// lines are that too.
pub fn check<R: Threads + Sync, W: Watch>(
    rt: &R,
    alloc: Global,
    program: &[u8],
    watch: &W,
) -> Result<Vec<u8>, Stop>
    ensures { MatchResult result (λ lines. IsChecked (alone program.now) lines.items) (IsStop (flows ∷ []) (alone program.now)) }
{
    let judged = accepted(rt, alloc, program, watch)?;
    Ok(slot_lines(alloc, &judged.program, &judged.accepted)?)
}
