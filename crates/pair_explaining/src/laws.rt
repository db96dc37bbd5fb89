// What holds of explanations of pairs.
ghost use Rattle.pair_explaining.specs.Laws.{ExplainedIsReported, FaultyLineIsShown, FirstBytesAreEnough, FirstBytesHold, HeldPasses, RefusalsAreTold};

/// One byte more than a text may have is enough: what is told of those bytes of texts holds of the whole texts.
/// It does nothing.
pub fn first_bytes_are_enough()
    ensures blocks { FirstBytesAreEnough }
    ensures held { FirstBytesHold }
{}

/// What is explained of texts is what `local` may report of them, whatever the input is. It does nothing.
pub fn explained_is_reported()
    ensures { ExplainedIsReported }
{}

/// Where nothing is found the texts pass all stages of a pair, with every input that isn't too long. It does nothing.
pub fn held_passes()
    ensures { HeldPasses }
{}

/// The line that is shown of a policy is the one that has the fault. It does nothing.
pub fn faulty_line_is_shown()
    ensures { FaultyLineIsShown }
{}

/// Blocks tell of each refusal of a command that doesn't look at the input. It does nothing.
pub fn refusals_are_told()
    ensures { RefusalsAreTold }
{}
