// What holds of all texts with several inputs.
ghost use Rattle.pair_running.specs.ServedPairsServed.{CutsAreEnough, OutcomeIsOne};

/// Texts with several inputs come to one outcome at most within a budget of turns, but for the ways by which faults of
/// flows show how a secret comes there. It does nothing.
pub fn texts_have_one_outcome()
    ensures { OutcomeIsOne }
{}

/// Texts of which only the first 1,048,577 bytes were read come to what the whole texts come to. It
/// does nothing.
pub fn first_bytes_are_enough()
    ensures { CutsAreEnough }
{}
