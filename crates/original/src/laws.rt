// What holds of all texts.
ghost use Rattle.original.specs.Laws.{CutsAreEnough, OrigIsNeverRefused, OutcomeIsOne};

/// Texts come to one outcome at most within a budget of turns. It does nothing.
pub fn texts_have_one_outcome()
    ensures { OutcomeIsOne }
{}

/// Texts of which only the first 1,048,577 bytes were read come to what the whole texts come to. It
/// does nothing.
pub fn first_bytes_are_enough()
    ensures { CutsAreEnough }
{}

/// No run ends because a policy refuses a call. It does nothing.
pub fn orig_is_never_refused()
    ensures { OrigIsNeverRefused }
{}
