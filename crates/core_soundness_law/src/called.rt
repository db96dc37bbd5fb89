// What a machine calls is among what its program's functions call, so a gate has to answer for these alone.

ghost use Rattle.core_soundness_law.specs.Called.{StartedCallOwn, StepsCallOwn, StepsKeepAccount};
ghost use Rattle.core_soundness_law.specs.CalledKeeping.{StepsKeepCalled};

/// A step of a machine that has only calls of its program's functions to do leaves it so, and asks for no other.
pub fn steps_call_own<G>()
    ensures { StepsCallOwn G }
{}

/// A function that is started has only such calls to do.
pub fn started_call_own()
    ensures { StartedCallOwn }
{}

/// A step of a machine that fits leaves it fitting where the gate fits for what the program's functions call.
pub fn steps_keep_called<G>()
    ensures { StepsKeepCalled G }
{}

/// A step leaves the budget as it is, takes no turn that it doesn't have, and awaits nothing but what it asks for.
pub fn steps_keep_account<G>()
    ensures { StepsKeepAccount G }
{}
