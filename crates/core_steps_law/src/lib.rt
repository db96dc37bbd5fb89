//! The single steps of the normal form follow its meaning by recursion. And of any number of steps: gates of which one
//! shows the other step alike; how many steps there can be under any gate, what a function comes to that is started in
//! a machine at rest, and a run that a policy judges as it goes. And a program whose calls have further arguments steps
//! as it does without them.
#![tactic(auto)]

mod arguments;
mod gates;
mod machines;

ghost use Rattle.core_steps_law.specs.Laws.{StepsAreTheRun, OnlyTheRunIsSeen, StepsFollowStatements, StepsTakeATurn, StepsAdd};
ghost use Rattle.core_steps_law.specs.Silent.{SilentRunsAgree};

pub use arguments::{added_outside, added_steps, pointers_have_values};
pub use gates::{bytes_are_the_runs, gates_agree};
pub use machines::{
    bodies_are_steps, folds_are_expected, judged_runs, one_stop, refusals_stay,
    refused_runs_are_expected, runs_are_bounded, runs_are_judged, runs_are_seen, steps_are_bounded,
    steps_use_room, stops_begin,
};

/// The steps of a whole program come to the run that the recursion gives, with its events, its end
/// and its turns, and no smaller number of steps ends it.
pub fn steps_are_the_run()
    ensures { StepsAreTheRun }
{}

/// A run that is seen after any number of steps is that run.
pub fn only_the_run_is_seen()
    ensures { OnlyTheRunIsSeen }
{}

/// From any machine whose innermost function begins with a list of statements, the steps come to
/// where the recursion of that list ends.
pub fn steps_follow_statements()
    ensures { StepsFollowStatements }
{}

/// A step takes at most one turn, and none that the budget doesn't have.
pub fn steps_take_a_turn<G>()
    ensures { StepsTakeATurn G }
{}

/// Steps add up: where so many have moved the machine, more go on from there, and where they
/// haven't, more change nothing.
pub fn steps_add<G>()
    ensures { StepsAdd G }
{}

/// So many steps under the gate that notes nothing are those of the whole run: the same answer and
/// machine, and of the events what hosts write.
pub fn silent_runs_agree()
    ensures { SilentRunsAgree }
{}
