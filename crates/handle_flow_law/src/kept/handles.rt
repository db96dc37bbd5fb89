// Where the handles of a slave lie, by a law on a function with nothing to do.
ghost use Rattle.handle_flow_law.specs.KeptHandlesLie.{HandlesLieUnderMarks};

/// Whatever replies a slave of an accepted program is given, a handle lies in its memory only where a
/// privileged slot is: in a variable or a global under it, or in a temporary with an expression that
/// may have its value.
pub fn handles_lie_under_marks()
    ensures { HandlesLieUnderMarks }
{}
