// What holds of explanations.
ghost use Rattle.explaining.specs.Laws.{FirstBytesAreEnough};

/// One byte more than a text may have is enough: what those bytes come to, the whole text comes to. It does nothing.
pub fn first_bytes_are_enough()
    ensures { FirstBytesAreEnough }
{}
