// What holds of all texts.
ghost use Rattle.program_split.specs.Laws.{FirstBytesAreEnough, OutcomeIsOne};

/// Texts come to one outcome at most, but for the ways by which faults show how a secret comes there. It does
/// nothing.
pub fn texts_have_one_outcome()
    ensures { OutcomeIsOne }
{}

/// A text of which only the first 1,048,577 bytes were read comes to what the whole text comes to. It does
/// nothing.
pub fn first_bytes_are_enough()
    ensures { FirstBytesAreEnough }
{}
