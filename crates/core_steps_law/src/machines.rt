// Any number of a machine's steps: how many there can be under any gate, what a function comes to that is
// started in a machine at rest, and a run that a policy judges as it goes.

ghost use Rattle.core_steps_law.specs.MachinesBodies.{BodiesAreSteps, OneStop, StopsBegin};
ghost use Rattle.core_steps_law.specs.MachinesBounded.{RunsAreBounded, RunsAreSeen, StepsAreBounded, StepsUseRoom};
ghost use Rattle.core_steps_law.specs.MachinesJudgedLaws.{FoldsAreExpected, JudgedRuns, RefusalsStay, RefusedRunsAreExpected, RunsAreJudged};

/// A step that moves a machine or asks for a call uses up room.
pub fn steps_use_room<G>()
    ensures { StepsUseRoom G }
{}

/// A machine makes at most as many steps that move it or ask as it has room for, whatever is told it
/// between them.
pub fn steps_are_bounded<G>()
    ensures { StepsAreBounded G }
{}

/// After more steps than there is room for a run has stopped.
pub fn runs_are_bounded<G>()
    ensures { RunsAreBounded G }
{}

/// The run of a whole program is seen after a number of steps that is known before.
pub fn runs_are_seen()
    ensures { RunsAreSeen }
{}

/// A run stops in one way.
pub fn one_stop<G>()
    ensures { OneStop G }
{}

/// Where a run has stopped, there is a first step that stopped it.
pub fn stops_begin<G>()
    ensures { StopsBegin G }
{}

/// A function that is started in a machine at rest comes to what the recursion says, and to nothing else.
pub fn bodies_are_steps()
    ensures { BodiesAreSteps }
{}

/// The judgement after so many steps is the fold of the events seen.
pub fn judged_runs<S>()
    ensures { JudgedRuns S }
{}

/// What is expected is read off the fold.
pub fn folds_are_expected<S>()
    ensures { FoldsAreExpected S }
{}

/// Behind a refusal nothing is judged.
pub fn refusals_stay<S>()
    ensures { RefusalsStay S }
{}

/// What is expected of a program under a policy is read off its judged run.
pub fn runs_are_judged<S>()
    ensures { RunsAreJudged S }
{}

/// A refusal that a judged run has come to is what is expected, with the bytes before it.
pub fn refused_runs_are_expected<S>()
    ensures { RefusedRunsAreExpected S }
{}
