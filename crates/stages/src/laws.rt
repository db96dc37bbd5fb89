// What holds of all climbs.
ghost use Rattle.stages.specs.Laws.{ClimbsJoin, FirstBytesAreEnough, LongerClimbsStop, PassedOrRefused, RefusalsAreOne};

/// Texts are refused in one way at most by a command, but for the ways by which its faults show how a secret comes
/// there. It does nothing.
pub fn refusals_are_one()
    ensures { RefusalsAreOne }
{}

/// Texts that pass all stages of a command aren't refused by it. It does nothing.
pub fn passed_or_refused()
    ensures { PassedOrRefused }
{}

/// Texts of which only the first 1,048,577 bytes were read pass, and are refused so, as the whole texts. It does
/// nothing.
pub fn first_bytes_are_enough()
    ensures { FirstBytesAreEnough }
{}

/// What refuses texts refuses them also where more stages stand behind. It does nothing.
pub fn longer_climbs_stop()
    ensures { LongerClimbsStop }
{}

/// Two parts of a climb are one climb. It does nothing.
pub fn climbs_join()
    ensures { ClimbsJoin }
{}
