// Lowered code names no global, and calls no function, that the body that it was made of doesn't.

ghost use Rattle.lowered_code_law.specs.NamesLaws.{LoweredNames};

/// A function's code names only the globals that its body names, and calls only the functions and hosts
/// that its body calls.
pub fn lowered_code_names_what_the_body_names()
    ensures { LoweredNames }
{}
