// Each list of tokens comes to an outcome: a program, or a place where the derivation stops.

ghost use Rattle.front_end_law.specs.ParsesLaws.{TokensComeToAnOutcome};

/// Each list of tokens is a program, or its derivation stops at a token that can't stand there, or where the
/// nesting first goes too deep. It does nothing.
pub fn tokens_come_to_an_outcome()
    ensures { TokensComeToAnOutcome }
{}
