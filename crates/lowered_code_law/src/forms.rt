// What the lowering of a well formed program gives is well formed in the normal form.

ghost use Rattle.lowered_code_law.specs.FormsLaws.{LoweredProgramsAreWellFormed};

/// The lowered program of every well formed one is well formed.
pub fn lowered_programs_are_well_formed()
    ensures { LoweredProgramsAreWellFormed }
{}
