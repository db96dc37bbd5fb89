// The texts of a pair, and the run of both its halves.
ghost use Rattle.std.specs.Prelude.{◌≤◌, MatchResult};
ghost use Rattle.stages.specs.Climb.{of_pair};
ghost use Rattle.stages.specs.Seen.{IsStop};
ghost use Rattle.pair_texts.specs.Seen.{texts_with};
ghost use Rattle.pair_running.specs.LocalPairLocal.{IsPairRun};
ghost use Rattle.pair_running.specs.LocalPairOutcomeSeen.{IsWholeRun, view_ran};

use crate::local_pair::ran::Ran;
use crate::local_pair::running::run_pair;
use pair_texts::{Beside, begin};
use pt_base::{Chooser, Watch};
use stages::Stop;
use std::alloc::Global;
use std::thread::Threads;
use wire::are_bytes;

/// What is expected of a program with these texts beside it, written and ended by both its halves together. Between the halves at most
/// `window` messages wait, at least 1. The chooser decides which half goes on where both could, and is asked once for each step of the
/// pair; where no pair begins it isn't asked. The watch is told of each function that has a body, as its edges are made and as it is
/// lowered.
///
/// # Errors
///
/// The faults of the first of lexer, parser, types, host table, policy, flows and input that has one, or want of memory.
pub fn run<R: Threads + Sync, C: Chooser, W: Watch>(
    rt: &R,
    alloc: Global,
    program: &[u8],
    beside: Beside<'_>,
    window: u32,
    chooser: &mut C,
    watch: &W,
) -> Result<Ran, Stop>
    requires { 1 ≤ window }
    ensures outcome { MatchResult result (λ r. IsPairRun beside.entry.turns (texts_with program.now beside.entry) (view_ran r)) (IsStop of_pair (texts_with program.now beside.entry)) }
    ensures whole { IsWholeRun (texts_with program.now beside.entry) beside.entry.turns window (C.answers chooser.old) (C.answers chooser.new) result }
{
    are_bytes(beside.input);
    let pair = begin(rt, alloc, program, beside, watch)?;
    let ran = run_pair(alloc, pair, beside.turns, window, chooser)?;
    Ok(ran)
}
