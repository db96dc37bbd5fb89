// The files of a pair are explained.
ghost use Rattle.std.specs.Prelude.{◌∷◌, List, MatchResult};
ghost use Rattle.stages.specs.Climb.{Stage, Texts, flows, hosts, rules};
ghost use Rattle.stages.specs.Seen.{AreGiven, IsStop};
ghost use Rattle.pair_explaining.specs.PairExplains.{IsPairHeld};

use explaining::holding_lines;
use pt_base::Watch;
use stages::{GivenTexts, Stop, passed};
use std::alloc::Global;
use std::thread::Threads;

/// What `local` and `run` find in a program, its host table and its policy before they begin: where no stage has a
/// fault, the lines that tell which variables of the program, in a file of this name, hold secrets. The watch is told of
/// each function that has a body, as its edges are made.
///
/// Time and memory are linear in the texts, in the program's slots and edges, and in what is written, but for
/// looking up hosts and functions, putting slots and faults in order and finding their lines.
///
/// # Errors
///
/// The refusal of lexer, parser, types, host table, policy or flows; or want of memory: more than
/// [`MOST_BYTES`](stages::MOST_BYTES) of lines are that too.
pub fn explain_pair<R: Threads + Sync, W: Watch>(
    rt: &R,
    alloc: Global,
    name: &[u8],
    given: GivenTexts<'_>,
    watch: &W,
) -> Result<Vec<u8>, Stop>
    ensures { (ss : List Stage) (t : Texts) → AreGiven t given.entry →
        MatchResult result (λ lines. IsPairHeld name.now t lines.items) (IsStop (hosts ∷ rules ∷ flows ∷ ss) t) }
{
    let passed = passed(rt, alloc, given, watch)?;
    let lines = holding_lines(
        alloc,
        name,
        given.program,
        &passed.program,
        &passed.accepted,
    )?;
    Ok(lines)
}
