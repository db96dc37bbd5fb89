// What holds of programs without a fault: their typed trees are well formed.

ghost use Rattle.type_law.specs.ProgramsLaws.{ProgramsAreWellFormed};

/// The typed tree of a program without a fault is well formed.
pub fn programs_are_well_formed()
    ensures { ProgramsAreWellFormed }
{}
