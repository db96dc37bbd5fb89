// Calls with further arguments behind their own: a program whose calls have them steps as it does without them, but that what it
// asks for has their values.

ghost use Rattle.core_steps_law.specs.ArgumentsLaws.{OutsideIsAdded, StepsAreAdded};
ghost use Rattle.core_steps_law.specs.ArgumentsPointers.{PointersHaveValues};

/// A program with further arguments steps as without them.
pub fn added_steps<G>()
    ensures { StepsAreAdded G }
{}

/// It begins and goes on as without them.
pub fn added_outside()
    ensures { OutsideIsAdded }
{}

/// Pointers to globals have the same values, whatever the memory is.
pub fn pointers_have_values()
    ensures { PointersHaveValues }
{}
