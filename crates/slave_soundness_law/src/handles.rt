// Which types the handles of a slave have, by a law on a function with nothing to do.
ghost use Rattle.slave_soundness_law.specs.Typed.{HandlesHaveTheirTypes};

/// Whatever replies the slave of a well-formed boot is given, each handle in its memory lies in a cell of the type with which it
/// was given.
pub fn handles_have_their_types()
    ensures { HandlesHaveTheirTypes }
{}
