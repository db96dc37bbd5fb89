//! A step of a well formed program in the normal form keeps that the machine fits: what is live has its types, numbers
//! are in range, handles stand for such, pointers point to live objects, and what the active functions have still to do
//! fits. And what a machine calls is among what its program's functions call, so a gate has to answer for these alone.
#![tactic(auto)]

mod called;

ghost use Rattle.core_soundness_law.specs.Laws.{ValuesFit, PlacesFit};
ghost use Rattle.core_soundness_law.specs.Outside.{RestFits, StartedFits, ResumedFits, BudgetedFits, ReceivedFits, WrittenFits, FilledFits, MoreIsKept, TypesTell};
ghost use Rattle.core_soundness_law.specs.StepLaws.{StepKeeps, ReceivedStay};

pub use called::{started_call_own, steps_call_own, steps_keep_account, steps_keep_called};

/// Where the memory fits, an expression that fits gives a cell that fits its type, or traps.
pub fn values_fit()
    ensures { ValuesFit }
{}

/// Where the memory fits, a place that fits designates an object of its type, or traps.
pub fn places_fit()
    ensures { PlacesFit }
{}

/// A step of a machine that fits, and awaits nothing, leaves it fitting, and its answer fits.
pub fn step_keeps<G>()
    ensures { StepKeeps G }
{}

/// A step changes no types of a received block, and not whether there is one.
pub fn received_stay<G>()
    ensures { ReceivedStay G }
{}

/// A machine at rest fits.
pub fn rest_fits()
    ensures { RestFits }
{}

/// A machine that fits, with no function active, does so when a function of the program is entered
/// with arguments that fit.
pub fn started_fits()
    ensures { StartedFits }
{}

/// A machine that fits goes on fitting with the result of the call that it awaited.
pub fn resumed_fits()
    ensures { ResumedFits }
{}

/// A machine that fits does so whatever its budget.
pub fn budgeted_fits()
    ensures { BudgetedFits }
{}

/// With no function active a machine that fits does so with any received block that fits.
pub fn received_fits()
    ensures { ReceivedFits }
{}

/// A machine that fits does so with a cell that fits where it was written.
pub fn written_fits()
    ensures { WrittenFits }
{}

/// A machine that fits does so with other cells in a block, as many, that fit.
pub fn filled_fits()
    ensures { FilledFits }
{}

/// A machine that fits does so where more handles stand for numbers.
pub fn more_is_kept()
    ensures { MoreIsKept }
{}

/// The types of a store's entries tell which handles stand for numbers of which types.
pub fn types_tell()
    ensures { TypesTell }
{}
