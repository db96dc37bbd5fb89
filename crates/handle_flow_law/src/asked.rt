// What a slave of an accepted program asks for has its handles under marks alone: for a marked
// parameter, behind one, or under a marked field.

ghost use Rattle.handle_flow_law.specs.AskedLaws.{AskedHandlesStand};

/// Whatever replies a slave of an accepted program is given, what its next step asks for has its
/// handles under the marks of the signature.
pub fn asked_handles_stand()
    ensures { AskedHandlesStand }
{}
