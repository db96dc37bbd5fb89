//! Handles are never computed with: the classes of variables, places and pointers, the judgment on
//! code in the normal form by which nothing that wants a number meets a handle, and the invariant of
//! a machine's state, which a step keeps.
#![tactic(auto)]

ghost use Rattle.handle_classes.specs.Laws.{ValuesFit, NoHandleIsComputedWith, StepsKeepFine, RestIsFine, StartsKeepFine, ResumesKeepFine, WritesKeepFine, CellsBehindFit};

/// Where the invariant holds of memory, a fine expression has a value of its class, and nothing
/// within it computes with a handle.
pub fn values_fit()
    ensures { ValuesFit }
{}

/// Where the invariant holds, the next step of fine code under a gate that fits computes with no
/// handle.
pub fn no_handle_is_computed_with<G>()
    ensures { NoHandleIsComputedWith G }
{}

/// A step of fine code keeps the invariant. What it asks for has arguments of the classes of the
/// parameters, and the outermost function ends with no handle.
pub fn steps_keep_fine<G>()
    ensures { StepsKeepFine G }
{}

/// The invariant holds of a machine in which no function is active.
pub fn rest_is_fine()
    ensures { RestIsFine }
{}

/// It holds where a function is entered from outside with arguments of the classes of its variables.
pub fn starts_keep_fine()
    ensures { StartsKeepFine }
{}

/// It holds after the result of the call that was asked for, if that is a handle only where the
/// call's result may be one.
pub fn resumes_keep_fine()
    ensures { ResumesKeepFine }
{}

/// It holds after a cell was written from outside into an object, if that is a handle only where one
/// may lie.
pub fn writes_keep_fine()
    ensures { WritesKeepFine }
{}

/// Behind a pointer a handle lies only where one may by the pointer's class, and a handle that is
/// written where one must be able to lie keeps the invariant.
pub fn cells_behind_fit()
    ensures { CellsBehindFit }
{}
