// A generated program and the run of both its halves.
ghost use Rattle.std.specs.Prelude.{MatchResult};
ghost use Rattle.stages.specs.Climb.{of_pair};
ghost use Rattle.stages.specs.Seen.{IsStop};
ghost use Rattle.pair_running.specs.GeneratedPairGenerated.{IsGenerated, texts_of};
ghost use Rattle.pair_running.specs.GeneratedPairOutcomeSeen.{IsWholeRun};
ghost use Rattle.pair_running.specs.LocalPairOutcomeSeen.{view_ran};

use crate::generated_pair::telling::{Made, told};
use crate::local_pair::Ran;
use pair_texts::Beside;
use program_gen::generate;
use pt_base::{Chooser, Watch};
use stages::Stop;
use std::alloc::Global;
use std::thread::Threads;

/// How many turns the run has.
const TURNS: u32 = 1000000;

/// How many messages of the slave may wait.
const WINDOW: u32 = 16;

/// What the generated program of so many functions comes to, with its own host table and policy, no input, 1000000 turns and a
/// window of 16: as [`local_pair::run`](crate::local_pair::run) has it, but for what is written. That is the line `gen SEED COUNT program P
/// output O` where main returned, with the lengths of the program and of what both halves wrote, and else nothing. The chooser decides
/// which half goes on where both could, and the watch is told of each function that has a body.
///
/// # Errors
///
/// The faults of the first stage that has one, or want of memory.
pub fn run<R: Threads + Sync, C: Chooser, W: Watch>(
    rt: &R,
    alloc: Global,
    seed: u32,
    functions: u32,
    chooser: &mut C,
    watch: &W,
) -> Result<Ran, Stop>
    ensures outcome { MatchResult result (λ r. IsGenerated seed functions (texts_of seed functions) (view_ran r)) (IsStop of_pair (texts_of seed functions)) }
    ensures whole { IsWholeRun seed functions (C.answers chooser.old) (C.answers chooser.new) result }
{
    let made = generate(alloc, seed, functions)?;
    let beside = Beside {
        host: &made.host,
        policy: &made.policy,
        input: b"",
        turns: TURNS,
    };
    let program = made.program.as_slice();
    let ran = crate::local_pair::run(rt, alloc, program, beside, WINDOW, chooser, watch)?;
    let written = told(
        alloc,
        Made { seed, functions },
        program,
        &ran.written,
        &ran.end,
    )?;
    Ok(Ran {
        written,
        end: ran.end,
        names: ran.names,
    })
}
