// A text goes through lexer, parser, types and flows, and then its program is lowered, split and printed.
ghost use Rattle.std.specs.Prelude.{[], ◌∷◌, IfOk, MatchResult};
ghost use Rattle.front_end.specs.Reading.{HasTypedTree};
ghost use Rattle.typed_tree.specs.TypedView.{view_typed};
ghost use Rattle.flow_rules.specs.Faults.{IsAccepted};
ghost use Rattle.stages.specs.Climb.{Texts, alone, flows};
ghost use Rattle.stages.specs.Seen.{IsStop};
ghost use Rattle.program_split.specs.Seen.{view_texts};
ghost use Rattle.program_split.specs.Split.{IsSplit};

use crate::half_texts::HalfTexts;
use program_halves::halves;
use pt_base::Watch;
use split_text::{print_monitor, print_slave};
use stages::{AcceptedProgram, Stop, accepted};
use std::alloc::{AllocError, Global};
use std::thread::Threads;

/// The texts of a program's halves. The watch is told of each function that has a body, as its edges are made and
/// as it is lowered.
///
/// Time and memory are linear in the program, in its slots and edges, and in what is written, but for
/// putting faults in order.
///
/// # Errors
///
/// The faults of the first of lexer, parser, types and flows that has one, or want of memory.
pub fn split<R: Threads + Sync, W: Watch>(
    rt: &R,
    alloc: Global,
    program: &[u8],
    watch: &W,
) -> Result<HalfTexts, Stop>
    ensures { MatchResult result (λ h. IsSplit (alone program.now) (view_texts h)) (IsStop (flows ∷ []) (alone program.now)) }
{
    let judged = accepted(rt, alloc, program, watch)?;
    let halves = printed(rt, alloc, judged, watch)?;
    Ok(halves)
}

// The texts of the halves of a program that breaks no rule. The program itself is let go before they are
// written.
fn printed<R: Threads + Sync, W: Watch>(
    rt: &R,
    alloc: Global,
    judged: AcceptedProgram,
    watch: &W,
) -> Result<HalfTexts, AllocError>
    requires { IsAccepted (view_typed judged.program) judged.accepted }
    ensures { (t : Texts) → HasTypedTree t.program (view_typed judged.program) → IfOk result (λ h. IsSplit t (view_texts h)) }
{
    let AcceptedProgram { program, accepted } = judged;
    let (slave, monitor) = halves(rt, alloc, &program, &accepted, watch)?;
    drop(program);
    let slave = print_slave(alloc, &slave)?;
    let monitor = print_monitor(alloc, &monitor)?;
    Ok(HalfTexts { slave, monitor })
}
