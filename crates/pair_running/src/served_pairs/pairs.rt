// The texts of several pairs, and the run of all of them.
ghost use Rattle.std.specs.Prelude.{◌≤◌, IfOk, MatchResult, length, map};
ghost use Rattle.pair_texts.specs.Several.{SharedTexts, StopOne, shared_with};
ghost use Rattle.pair_running.specs.ServedPairsBeginning.{MayBegin};
ghost use Rattle.pair_running.specs.ServedPairsServed.{IsServed};
ghost use Rattle.pair_running.specs.ServedPairsTurns.{AreWholeTurns, HaveTurns, view_served};

use crate::served_pairs::beginning::{Begun, begin, of_bytes};
use crate::served_pairs::served::Served;
use crate::served_pairs::turning::run_sessions;
use pair_laws::begun_pairs::begun_pairs_are_expected;
use pair_texts::{Shared, share};
use pt_base::{Bytes, Chooser, Watch};
use stages::{GivenTexts, Stop};
use std::alloc::{AllocError, Global};
use std::thread::Threads;

// What the pairs of these inputs come to.
fn served<C: Chooser>(
    alloc: Global,
    shared: Shared,
    all: &[Bytes],
    turns: u32,
    chooser: &mut C,
) -> Result<Served, AllocError>
    requires some { 1 ≤ length all.now }
    requires few { length all.now ≤ 64 }
    requires texts { (t : SharedTexts) × MayBegin t shared all.now }
    ensures outcome { (t : SharedTexts) → MayBegin t shared all.now → IfOk result (λ v. IsServed t all.now turns (view_served v)) }
    ensures whole { (t : SharedTexts) → MayBegin t shared all.now
        → IfOk result (λ v. HaveTurns t all.now turns (C.answers chooser.old) (C.answers chooser.new) (map (λ x. x.bytes) v.sessions.items)) }
{
    begun_pairs_are_expected();
    let Begun {
        mut hub,
        talks,
        names,
    } = begin(alloc, shared, all, turns)?;
    let sessions = run_sessions(alloc, &mut hub, talks, chooser)?;
    Ok(Served { sessions, names })
}

/// What is expected of a program with each of these inputs, written and ended by both its halves together, all over one
/// monitor's program. Sessions go on by turns as the chooser answers, see [`run_sessions`]; where no pair begins it isn't
/// asked. The watch is told of each function that has a body, as its edges are made and as it is lowered, once.
///
/// # Errors
///
/// The faults of the first of lexer, parser, types, host table, policy, flows and inputs that has one, or want of memory.
pub fn run<R: Threads + Sync, C: Chooser, W: Watch>(
    rt: &R,
    alloc: Global,
    given: GivenTexts<'_>,
    all: &[Bytes],
    turns: u32,
    chooser: &mut C,
    watch: &W,
) -> Result<Served, Stop>
    requires some { 1 ≤ length all.now }
    requires few { length all.now ≤ 64 }
    ensures outcome { MatchResult result (λ v. IsServed (shared_with given.entry) all.now turns (view_served v)) (StopOne (shared_with given.entry) all.now) }
    ensures whole { AreWholeTurns (shared_with given.entry) all.now turns (C.answers chooser.old) (C.answers chooser.new) result }
{
    of_bytes(all);
    let shared = share(rt, alloc, given, all, watch)?;
    let served = served(alloc, shared, all, turns, chooser)?;
    Ok(served)
}
